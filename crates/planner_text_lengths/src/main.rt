// A run of the planner's program on an empty text, on one of 40,960 bytes, and on one of a byte more.
#![tactic(auto)]

use planner_program::plan_input;
use std::fs;
use std::rt::Files;

// The planner's program with a file as its input.
fn plan_file<R: Files + Print + Eprint + AllocGlobal>(rt: &R, path: &str) {
    plan_input(rt, fs::open(rt, path).ok());
}

// Plans an empty text, one of 40,960 bytes, and one of a byte more.
fn main(rt: HostRuntime) {
    // Number 2 on line 1, which is missing.
    plan_file(&rt, "empty.txt");
    // A job of 24 lines with bytes after the last: number 2 on line 25.
    plan_file(&rt, "bytes_40960.txt");
    // A job of 40,961 bytes: number 1.
    plan_file(&rt, "bytes_40961.txt");
}
