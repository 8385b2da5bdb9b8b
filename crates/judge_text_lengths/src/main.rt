// A run of the judge's program on job texts of 40,960 bytes and plan texts of 32,768, on such of a byte more, and on a long plan.
#![tactic(auto)]

use judge_program::judge_files;

// Judges texts at their limits, past them, and a long plan.
fn main(rt: HostRuntime) {
    // A job of 24 lines with bytes after the last: number 2 on line 25 of text 1. One byte more: number 1.
    judge_files(&rt, b"job_40960.txt", b"plan.txt");
    judge_files(&rt, b"job_40961.txt", b"plan.txt");
    // A plan of 9 lines with bytes after the last: number 2 on line 10 of text 2. One byte more: number 1.
    judge_files(&rt, b"job.txt", b"plan_32768.txt");
    judge_files(&rt, b"job.txt", b"plan_32769.txt");
    // A plan of 8,714 bytes, every part at every opening: accepted only if read to its end.
    judge_files(&rt, b"long_job.txt", b"long_plan.txt");
}
