// Replays a fixed list of the Rust's answers: reads rows from standard input, runs the library on each, and writes the answers.
// The file `stdin` has the rows and `stdout` what the Rust answered to them; oracle/run --list wrote both.
#![tactic(auto)]

ghost use Rattle.std.specs.Prelude.{◌≤◌, length};

mod driver;
mod rows;
mod telling;

use std::io::Read;

// More bytes than the list has, and than an input has: fixed memory, no heap.
const ROOM: usize = 65536;

fn main(rt: HostRuntime) {
    let mut bytes = [0u8; ROOM];
    let n = read_full(&mut rt.stdin(), &mut bytes);
    list(&rt, &bytes[..n]);
}

// Reads until the bytes are all filled, the input ends or a read fails, and answers how many are filled.
// A read is handed all the room that is left: `io::copy` hands on 8,192 bytes, and of a longer message the rest would be lost.
fn read_full(input: &mut impl Read, bytes: &mut [u8]) -> usize
    ensures { result ≤ length bytes.new }
{
    let mut done = 0;
    while done < bytes.len() {
        let Ok(n) = input.read(&mut bytes[done..]) else {
            return done;
        };
        if n == 0 {
            return done;
        }
        done += n;
    }
    done
}

// More rows than the list has.
const ROWS: u32 = 4096;

fn list(rt: &impl Print, bytes: &[u8]) {
    let mut text = bytes.iter();
    for number in 1..=ROWS {
        let Some(row) = rows::parsed(&mut text) else {
            return;
        };
        let mut room = [0u8; 256];
        let input = rows::unhex(&mut text, &mut room);
        telling::text(rt, format_args!("row {number}\n"));
        driver::replay(rt, row, input);
    }
}
