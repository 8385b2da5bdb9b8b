// A run of the judge's program where a file is missing and where a folder stands in its place: each counts as an empty text,
// so as a plan it is doing nothing (10: part 1 is due at step 2), and as a job number 2 on line 1.
// Standard input holds two texts over the limit: read in a file's place it would give number 1.
#![tactic(auto)]

use judge_program::judge_files;

// Judges where a file is missing, and where a folder stands in its place.
fn main(rt: HostRuntime) {
    judge_files(&rt, b"job.txt", b"missing.txt");
    judge_files(&rt, b"missing.txt", b"plan.txt");
    judge_files(&rt, b"job.txt", b"folder");
    judge_files(&rt, b"folder", b"plan.txt");
}
