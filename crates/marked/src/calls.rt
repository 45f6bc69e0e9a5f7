// One call of a reader each, told in a line; a refused one with whether state and window are as before.
use crate::compare::Held;
use crate::telling;
use reader::{Place, Position, Reader, Refusal};

pub fn open(rt: &impl Print, size: usize) {
    telling::text(rt, format_args!("  open {size}: "));
    match Reader::open(size) {
        Ok(state) => { telling::text(rt, format_args!("a window of {}\n", state.window)) }
        Err(refusal) => telling::text(rt, format_args!("refused {}\n", u8::from(refusal))),
    }
}

// The calls on one window.
#[derive(Drop)]
pub struct Calls<'a, P> {
    rt: &'a P,
    window: &'a mut [u8],
}

impl<'a, P: Print> Calls<'a, P> {
    pub fn on(rt: &'a P, window: &'a mut [u8]) -> Calls<'a, P> {
        Calls { rt, window }
    }

    pub fn feed(&mut self, state: Reader, chunk: &[u8]) -> Reader {
        let before = Held::of(state, self.window);
        let fed = state.feed(self.window, chunk);
        telling::text(self.rt, format_args!("  feed {}", chunk.len()));
        match fed.answer {
            Ok(t) => telling::text(self.rt, format_args!(": took {t}\n")),
            Err(refusal) => self.verdict(refusal, before, fed.state),
        }
        fed.state
    }

    pub fn finish(&self, state: Reader) -> Reader {
        let before = Held::of(state, self.window);
        let finished = state.finish(self.window);
        telling::text(self.rt, "  finish");
        match finished.answer {
            Ok(()) => telling::text(self.rt, ": noted\n"),
            Err(refusal) => self.verdict(refusal, before, finished.state),
        }
        finished.state
    }

    pub fn next(&self, state: Reader) -> Reader {
        let before = Held::of(state, self.window);
        let next = state.next(self.window);
        telling::text(self.rt, "  next");
        match next.answer {
            Ok(_) => {
                telling::text(self.rt, ": ");
                telling::tell(self.rt, next.answer, next.state, self.window);
            }
            Err(refusal) => self.verdict(refusal, before, next.state),
        }
        next.state
    }

    pub fn seek(&self, state: Reader, place: Position) -> Reader {
        let before = Held::of(state, self.window);
        let moved = state.seek(self.window, place);
        telling::text(
            self.rt,
            format_args!("  seek {} {}", place.line.0, place.byte.0),
        );
        match moved.answer {
            Ok(Place::Inside) => telling::text(self.rt, ": inside\n"),
            Ok(Place::FeedFrom(b)) => telling::text(self.rt, format_args!(": feed from {}\n", b.0)),
            Err(refusal) => self.verdict(refusal, before, moved.state),
        }
        moved.state
    }

    fn verdict(&self, refusal: Refusal, before: Held, state: Reader) {
        let number = u8::from(refusal);
        let same = before == Held::of(state, self.window);
        let after = if same { "unchanged" } else { "CHANGED" };
        telling::text(self.rt, format_args!(": refused {number}, {after}\n"));
    }
}
