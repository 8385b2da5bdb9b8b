// The planner: the job on standard input, the answer on standard output.
#![tactic(auto)]

// Plans the job on standard input.
fn main(rt: HostRuntime) {
    planner_program::plan_input(&rt, Some(rt.reader()));
}
