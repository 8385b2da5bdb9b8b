// The judge: the files job.txt and plan.txt of the current folder, the answer on standard output.
#![tactic(auto)]

// Judges the files of the current folder.
fn main(rt: HostRuntime) {
    judge_program::judge_files(&rt, b"job.txt", b"plan.txt");
}
