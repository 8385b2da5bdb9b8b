// The hall planner: the hall on standard input, the answer on standard output.
#![tactic(auto)]

// Plans the hall on standard input.
fn main(rt: HostRuntime) {
    hall_program::hall_input(&rt, Some(rt.reader()));
}
