// Reads FASTQ from standard input and prints a line for each answer of the reader, and then the position.
// Arguments, both optional: the window's size and the most bytes of a chunk.
#![tactic(auto)]

mod driver;
mod failure;
mod input;
mod output;

use std::env::{Env, FillError};

// The largest window and the largest chunk.
const LARGEST: u64 = 65536;

fn main(rt: HostRuntime) {
    let Some((window, chunk)) = sizes(&rt) else {
        refuse(&rt);
        return;
    };
    driver::read_all(&rt, &mut rt.stdin(), window as usize, chunk as usize);
}

// The window's size and the most bytes of a chunk, where the arguments are good and no more than these.
fn sizes(rt: &impl Env) -> Option<(u64, u64)> {
    let window = argument(rt, 1, 3, LARGEST)?;
    let chunk = argument(rt, 2, 1, window)?;
    if has_argument(rt, 3) {
        return None;
    }
    Some((window, chunk))
}

// The argument's number, or the default where it is left out. A word has fixed memory, no heap.
fn argument(rt: &impl Env, i: usize, low: u64, default: u64) -> Option<u64> {
    let mut word = [0u8; 4096];
    match rt.arg(i, &mut word) {
        Ok(n) => text::number_within(&word[..n], low, LARGEST),
        Err(FillError::NotPresent) => Some(default),
        Err(FillError::TooLong) => None,
    }
}

// Whether there is an argument of this number: where there is none, none of a higher number is there either. The word has fixed memory, no heap.
fn has_argument(rt: &impl Env, i: usize) -> bool {
    let mut word = [0u8; 1];
    !matches!(rt.arg(i, &mut word), Err(FillError::NotPresent))
}

fn refuse(rt: &(impl Print + Eprint)) {
    let _ = rt.write_all(b"error\t1\n");
    let _ = eprintln!(rt;
        "positions [WINDOW [CHUNK]]: a window has 3 to 65536 bytes, a chunk 1 to 65536"
    );
}
