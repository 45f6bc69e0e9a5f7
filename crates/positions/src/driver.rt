// Drives a reader over standard input: brings it the input that it asks for, and hands the lines of its other answers to the output.
use crate::failure;
use crate::input::Input;
use crate::output::Output;
use reader::{Answer, Reader};
use std::io::Read;
use std::ops::ControlFlow;

// The most bytes of a window, of a chunk and of gathered output: fixed memory, no heap.
const LARGEST: usize = 65536;

#[derive(Drop)]
struct Run<'a, P, R> {
    rt: &'a P,
    input: Input<'a, R>,
    output: Output<'a, P>,
    window: &'a mut [u8],
    reader: Reader,
}

// Reads with a window of `size` bytes and chunks of at most `most`.
// Not inlined: its memory is taken when the arguments are read, and not beside theirs.
#[inline(never)]
pub fn read_all<P: Print + Eprint, R: Read>(rt: &P, stdin: &mut R, size: usize, most: usize) {
    let mut window = [0u8; LARGEST];
    let mut chunk = [0u8; LARGEST];
    let mut block = [0u8; LARGEST];
    let size = size.min(LARGEST);
    let most = most.min(LARGEST);
    let Ok(reader) = Reader::open(size) else {
        return;
    };
    let mut run = Run {
        rt,
        input: Input::new(stdin, &mut chunk[..most]),
        output: Output::new(rt, &mut block),
        window: &mut window[..size],
        reader,
    };
    run.drive();
}

impl<P: Print + Eprint, R: Read> Run<'_, P, R> {
    // A proved loop has to end, and nothing says that the input does. So the loop counts its turns, up to a number that no run reaches.
    fn drive(&mut self) {
        for _ in 0..u64::MAX {
            if self.turn().is_break() {
                return;
            }
        }
    }

    // The programs have a turn each: what is brought and told, and when a run ends, is their own, and the `match` is all that they share.
    // One answer: the input that it asks for, or its line. Behind the closing one stands the position, and all is written.
    // One place prints an answer: from two, a record of 8 bytes took three tenths more time.
    fn turn(&mut self) -> ControlFlow<()> {
        let next = self.reader.next(self.window);
        self.reader = next.state;
        let closes = match next.answer {
            Ok(Answer::More) => return self.bring(),
            Ok(Answer::Record(_, _)) => false,
            Ok(Answer::WindowLimit(_, _))
            | Ok(Answer::InvalidStart(_, _))
            | Ok(Answer::InvalidSeparator(_, _, _))
            | Ok(Answer::UnequalLengths(_, _, _, _))
            | Ok(Answer::UnexpectedEnd(_, _))
            | Ok(Answer::End)
            | Err(_) => true,
        };
        self.output.put_answer(next);
        if !closes {
            return self.output.settle();
        }
        self.output.put_position(next.state);
        let _ = self.output.flush();
        ControlFlow::Break(())
    }

    // Feeds what is left of the chunk, or what a read brings, and notes the end where that is nothing. A read that fails ends the run.
    fn bring(&mut self) -> ControlFlow<()> {
        if let Err(error) = self.input.fill() {
            let _ = self.output.flush();
            failure::tell(self.rt, "positions: standard input", error);
            return ControlFlow::Break(());
        }
        let bytes = self.input.left();
        if bytes.is_empty() {
            self.reader = self.reader.finish(self.window).state;
            return ControlFlow::Continue(());
        }
        let fed = self.reader.feed(self.window, bytes);
        self.reader = fed.state;
        match fed.answer {
            Ok(count) => {
                self.input.take(count);
                ControlFlow::Continue(())
            }
            Err(_) => self.refuse(),
        }
    }

    // Refused are only bytes past 2^48: what is gathered is written, and standard error says so.
    fn refuse(&mut self) -> ControlFlow<()> {
        let _ = self.output.flush();
        let _ = eprintln!(self.rt; "positions: standard input has more than 2^48 bytes");
        ControlFlow::Break(())
    }
}
