// The optimum: the job on standard input, the answer on standard output.
#![tactic(auto)]

// Plans the job on standard input by fair shares.
fn main(rt: HostRuntime) {
    optimum_program::optimum_input(&rt, Some(rt.reader()));
}
