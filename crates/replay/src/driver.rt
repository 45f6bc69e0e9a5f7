// Drives the reader over a row's input, and tells each answer that is no request.
use crate::rows::{Kind, Row};
use crate::telling;
use reader::{Answer, Byte, Position, Reader, Refusal};
use record::Record;
use sets::Reply;
use std::ops::ControlFlow;

// More turns than any row takes: each brings input or tells an answer.
const TURNS: u32 = 512;

// The most bytes of a window; a table has room for 16 entries: fixed memory, no heap.
const LARGEST: usize = 512;

// A row's reading on its way.
#[derive(Drop)]
struct Run<'a, 'w, P> {
    rt: &'a P,
    kind: Kind,
    chunk: usize,
    input: &'a [u8],
    window: &'w mut [u8],
    reader: Reader,
}

pub fn replay<P: Print>(rt: &P, row: Row, input: &[u8]) {
    let mut bytes = [0u8; LARGEST];
    let size = row.window.min(LARGEST);
    let Ok(reader) = Reader::open(size) else {
        return;
    };
    let mut run = Run {
        rt,
        kind: row.kind,
        chunk: row.chunk,
        input,
        window: &mut bytes[..size],
        reader,
    };
    match row.kind {
        Kind::InSets(wanted) => run.sets(wanted),
        Kind::Sought(place) => {
            run.answers();
            run.seek(place);
            run.answers();
        }
        Kind::Written | Kind::Answered => run.answers(),
    }
}

impl<'a, P: Print> Run<'a, '_, P> {
    fn seek(&mut self, place: Position) {
        self.reader = self.reader.seek(self.window, place).state;
        telling::text(self.rt, "seek");
        telling::position(self.rt, self.reader);
    }

    fn answers(&mut self) {
        for _ in 0..TURNS {
            if self.turn().is_break() {
                return;
            }
        }
        telling::text(self.rt, "no closing answer\n");
    }

    // The programs have a turn each: what is brought and told, and when a run ends, is their own, and the `match` is all that they share.
    // Brings the input that is asked for, or tells an answer. Only a record leaves the reading open.
    fn turn(&mut self) -> ControlFlow<()> {
        let next = self.reader.next(self.window);
        self.reader = next.state;
        match next.answer {
            Ok(Answer::More) => self.bring(),
            Ok(Answer::Record(r, _)) => {
                self.tell(next.answer);
                if let Kind::Written = self.kind {
                    telling::written(self.rt, r, self.window);
                }
            }
            Ok(Answer::WindowLimit(_, _))
            | Ok(Answer::InvalidStart(_, _))
            | Ok(Answer::InvalidSeparator(_, _, _))
            | Ok(Answer::UnequalLengths(_, _, _, _))
            | Ok(Answer::UnexpectedEnd(_, _))
            | Ok(Answer::End)
            | Err(_) => {
                self.tell(next.answer);
                return ControlFlow::Break(());
            }
        }
        ControlFlow::Continue(())
    }

    fn tell(&self, answer: Result<Answer, Refusal>) {
        match answer {
            Ok(answer) => telling::tell(self.rt, answer, self.window),
            Err(refusal) => telling::text(self.rt, format_args!("refused {}", u8::from(refusal))),
        }
        telling::position(self.rt, self.reader);
    }

    // What is left of the input: the number of its first byte is that of the window's first byte and of those held.
    fn left(&self) -> &'a [u8] {
        let front = (self.reader.byte.0 as usize).wrapping_sub(self.reader.start);
        let at = front.wrapping_add(self.reader.fill);
        self.input.get(at..).unwrap_or_default()
    }

    // Feeds the next chunk of the input, or finishes where all of it is taken.
    fn bring(&mut self) {
        let left = self.left();
        let next = left.get(..self.chunk).unwrap_or(left);
        self.reader = if next.is_empty() {
            self.reader.finish(self.window).state
        } else {
            self.reader.feed(self.window, next).state
        };
    }

    // All of the input is fed and its end noted; then sets of at most so many records. Not inlined, as `written`.
    #[inline(never)]
    fn sets(&mut self, wanted: usize) {
        self.reader = self.reader.feed(self.window, self.input).state;
        self.reader = self.reader.finish(self.window).state;
        let mut table = [0usize; 80];
        for _ in 0..TURNS {
            let set = sets::read_record_set_exact(self.reader, self.window, &mut table, wanted);
            self.reader = set.state;
            match set.answer {
                Ok(Reply::Count(k)) => {
                    self.entries(&table, k);
                    telling::text(self.rt, format_args!("set of {k}"));
                    telling::position(self.rt, self.reader);
                }
                Ok(Reply::Other(answer)) => return self.tell(Ok(answer)),
                Err(refusal) => return self.tell(Err(refusal)),
            }
        }
    }

    // All of the input is in the window, so that a place there is an offset in the input.
    fn entries(&self, table: &[usize], k: usize) {
        for &[start, seq, sep, qual, end] in table.as_chunks::<5>().0.iter().take(k) {
            let r = Record {
                start,
                seq,
                sep,
                qual,
                end,
            };
            telling::found(self.rt, r, Byte(start as u64), self.window);
            telling::text(self.rt, "\n");
        }
    }
}
