// Standard output, gathered and written in blocks.
use crate::failure;
use reader::{Answer, Outcome, Reader};
use std::ops::ControlFlow;
use writer::Refusal;

// More than any line takes: the longest has a word, and six numbers of 20 digits at most.
const LINE: usize = 256;

// Lines in fixed memory, since a buffered writer would take a heap.
#[derive(Drop)]
pub struct Output<'a, P> {
    rt: &'a P,
    bytes: &'a mut [u8],
    gathered: usize, // how many bytes wait to be written
}

impl<'a, P: Print + Eprint> Output<'a, P> {
    pub fn new(rt: &'a P, bytes: &'a mut [u8]) -> Output<'a, P> {
        Output {
            rt,
            bytes,
            gathered: 0,
        }
    }

    pub fn put_answer(&mut self, next: Outcome<Answer>) {
        let answer = next.answer.map_err(u8::from);
        let written = answers::put_answer(self.bytes, self.gathered, next.state, answer);
        self.go_behind(written);
    }

    pub fn put_position(&mut self, state: Reader) {
        let written = answers::put_position(self.bytes, self.gathered, state);
        self.go_behind(written);
    }

    fn go_behind(&mut self, line: Result<usize, Refusal>) {
        if let Ok(n) = line {
            self.gathered = self.gathered.wrapping_add(n);
        }
    }

    // Writes all that is gathered where little room is left.
    pub fn settle(&mut self) -> ControlFlow<()> {
        if LINE <= self.bytes.len().saturating_sub(self.gathered) {
            return ControlFlow::Continue(());
        }
        self.flush()
    }

    // What is gathered.
    fn block(&self) -> &[u8] {
        self.bytes.get(..self.gathered).unwrap_or_default()
    }

    // Writes what is gathered. A write that fails is told on standard error, and ends the run.
    pub fn flush(&mut self) -> ControlFlow<()> {
        let written = self.rt.write_all(self.block());
        self.gathered = 0;
        match written {
            Ok(()) => ControlFlow::Continue(()),
            Err(error) => {
                failure::tell(self.rt, "positions: standard output", error);
                ControlFlow::Break(())
            }
        }
    }
}
