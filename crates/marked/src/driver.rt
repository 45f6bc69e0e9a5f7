// Drives the reader over an input that comes in chunks, and tells each answer that is no request.
ghost use Rattle.std.specs.Prelude.{◌≤◌};

use crate::telling;
use reader::{Answer, Reader, Refusal};
use std::ops::ControlFlow;

// More turns than any example takes: each brings input or tells an answer.
const TURNS: u32 = 64;

// An example's reading on its way.
#[derive(Drop)]
struct Run<'a, 'w, P> {
    rt: &'a P,
    name: &'a str,
    chunk: usize,
    rest: &'a [u8], // the input that the reader did not take yet
    window: &'w mut [u8],
    reader: Reader,
}

// An example in chunks of 1, 2, 3 and 64 bytes, on one window in fixed memory: the bytes that a run leaves there must not matter to the next.
pub fn example<P: Print>(rt: &P, name: &str, size: usize, input: &[u8])
    requires { size ≤ 64 }
{
    let mut bytes = [0u8; 64];
    let window = &mut bytes[..size];
    for chunk in [1, 2, 3, 64] {
        open(rt, name, chunk, input, window);
    }
}

fn open<P: Print>(rt: &P, name: &str, chunk: usize, input: &[u8], window: &mut [u8]) {
    let Ok(reader) = Reader::open(window.len()) else {
        return;
    };
    let mut run = Run {
        rt,
        name,
        chunk,
        rest: input,
        window,
        reader,
    };
    run.drive();
}

impl<P: Print> Run<'_, '_, P> {
    // Up to the closing answer, and the one after it.
    fn drive(&mut self) {
        for _ in 0..TURNS {
            if self.turn().is_break() {
                let _ = self.turn();
                return;
            }
        }
        let name = self.name;
        telling::text(self.rt, format_args!("{name} has no closing answer\n"));
    }

    // The programs have a turn each: what is brought and told, and when a run ends, is their own, and the `match` is all that they share.
    // Brings the input that is asked for, or tells an answer. Only a record leaves the reading open.
    fn turn(&mut self) -> ControlFlow<()> {
        let next = self.reader.next(self.window);
        self.reader = next.state;
        match next.answer {
            Ok(Answer::More) => {
                self.bring();
                ControlFlow::Continue(())
            }
            Ok(Answer::Record(_, _)) => {
                self.tell(next.answer);
                ControlFlow::Continue(())
            }
            Ok(Answer::WindowLimit(_, _))
            | Ok(Answer::InvalidStart(_, _))
            | Ok(Answer::InvalidSeparator(_, _, _))
            | Ok(Answer::UnequalLengths(_, _, _, _))
            | Ok(Answer::UnexpectedEnd(_, _))
            | Ok(Answer::End)
            | Err(_) => {
                self.tell(next.answer);
                ControlFlow::Break(())
            }
        }
    }

    fn tell(&self, answer: Result<Answer, Refusal>) {
        let (name, size, chunk) = (self.name, self.window.len(), self.chunk);
        telling::text(self.rt, format_args!("{name} {size} chunks of {chunk}: "));
        telling::tell(self.rt, answer, self.reader, self.window);
    }

    // Feeds the next chunk of the input, or finishes where all of it is taken.
    fn bring(&mut self) {
        let next = self.rest.get(..self.chunk).unwrap_or(self.rest);
        if next.is_empty() {
            self.reader = self.reader.finish(self.window).state;
            return;
        }
        let fed = self.reader.feed(self.window, next);
        self.reader = fed.state;
        if let Ok(n) = fed.answer {
            self.rest = self.rest.get(n..).unwrap_or_default();
        }
    }
}
