// The reader: a state that is handed in and handed back changed, over a window that the caller lends.
// Feed and finish bring input, next answers, seek moves, position tells. Each call takes any state, window and numbers, and does its own checking.
#![tactic(auto)]

ghost use Rattle.std.specs.Prelude.{◌≡◌, true, false, ◌+◌, ◌-◌, ◌≤◌, ◌<◌, length};
ghost use Rattle.std.proofs.Math.Seq.{slice};
ghost use Rattle.reading.specs.Bytes.{is_empty, trim_cr, pieces, all_blank};
ghost use Rattle.reading.specs.Reading.{end_id};
ghost use Rattle.record.specs.Noted.{listed};
ghost use Rattle.record.specs.Check.{span_of};
ghost use Rattle.reader.specs.State.{number_of, open_of, position_of, notes_fit, own, Own, Notes};
ghost use Rattle.reader.specs.Feed.{refused, ready_of, feed_of, taking_of, finish_of, fed_window, filled, front_of, notes_from};
ghost use Rattle.reader.specs.Next.{next_of, seeking_of, onward_of, decided_of};
ghost use Rattle.reader.specs.Seek.{seek_of, moved_by};
ghost use Rattle.reader.specs.Inside.{put_of, land_of, nothing_of, numbers_of, tail_of, invalid_of, judged_of, moved_of, Seeks};

use record::{Invalid, Noted, Record, Span};

// Two types of one shape by document 01: line numbers and byte offsets are kinds that can't be mixed.
#[derive(Clone, Copy, Debug, PartialEq, Eq)]
pub struct Line(pub u64);

#[derive(Clone, Copy, Debug, PartialEq, Eq)]
pub struct Byte(pub u64);

// Where a record starts: its line, and its offset in the input.
#[derive(Clone, Copy, Debug, PartialEq, Eq)]
pub struct Position {
    pub line: Line,
    pub byte: Byte,
}

// The state. Held bytes are window[..fill]; window[0] is the input's byte number byte - start.
#[derive(Clone, Copy, Debug, PartialEq, Eq)]
pub struct Reader {
    pub window: usize, // the window's length
    pub start: usize, // where the record starts that is sought or was answered
    pub fill: usize, // the end of the held bytes
    pub noted: Noted, // its line ends noted so far; all four of a complete record that was answered
    pub mark: usize, // up to where the held bytes are searched
    pub line: Line, // the record's position
    pub byte: Byte,
    pub ended: bool, // the end is noted
    pub waiting: bool, // for input
    pub closed: bool, // only Ends follow
}

// Why a call is refused, by document 01's numbers from 1 on. A refused call changes nothing.
#[derive(Clone, Copy, Debug, PartialEq, Eq)]
pub enum Refusal {
    WindowSize = 1, // open: the window is shorter than 3 or longer than 16,777,216
    Foreign = 2, // the state is none of a window of this length
    NotWaiting = 3, // feed or finish: the state is not waiting for input
    EndNoted = 4, // feed or finish: the end is noted
    PastLimit = 5, // what is fed would end past byte 2^48; the line or the byte is above 2^48
    NothingToDo = 6, // no record is wanted, or there is no room for one; a chunk size of 0
}

// What a call answers, and the state after it. A refused call hands the state back as it was.
#[derive(Clone, Copy, Debug, PartialEq, Eq)]
pub struct Outcome<T> {
    pub state: Reader,
    pub answer: Result<T, Refusal>,
}

// What next answers. A record's five numbers and an id's range are places in the window; the byte beside them is absolute.
#[derive(Clone, Copy, Debug, PartialEq, Eq)]
pub enum Answer {
    Record(Record, Byte),
    More,
    WindowLimit(Line, Byte),
    InvalidStart(u8, Line),
    InvalidSeparator(u8, Line, Option<Span>),
    UnequalLengths(usize, usize, Line, Option<Span>),
    UnexpectedEnd(Line, Option<Span>),
    End,
}

// What seek answers: the place is among the held bytes, or the byte to feed from.
#[derive(Clone, Copy, Debug, PartialEq, Eq)]
pub enum Place {
    Inside,
    FeedFrom(Byte),
}

// What next answers but for the state's numbers, and the state's two flags after it, as `decided_of` has them.
#[derive(Clone, Copy)]
pub struct Decided {
    pub answer: Answer,
    pub waiting: bool,
    pub closed: bool,
}

impl From<Refusal> for u8 {
    ghost from_gives = { λ refusal number. number ≡ number_of refusal };

    fn from(refusal: Refusal) -> u8 {
        refusal as u8
    }
}

impl Reader {
    pub const SMALLEST: usize = 3;

    pub const LARGEST: usize = 16777216;

    // 2^48, the most bytes of an input
    pub const LIMIT: u64 = 281474976710656;

    // 2^49, above which no line of a state may be
    pub const LINES: u64 = 562949953421312;

    // A fresh state for windows of this length: line 1, byte 0, nothing held, waiting.
    #[tactic(auto, using(crate::proofs::Seeking::open_small, crate::proofs::Seeking::open_large, crate::proofs::Seeking::open_fresh))]
    pub fn open(window: usize) -> Result<Reader, Refusal>
        ensures { result ≡ open_of window }
    {
        if window < Reader::SMALLEST || Reader::LARGEST < window {
            return Err(Refusal::WindowSize);
        }
        Ok(Reader {
            window,
            start: 0,
            fill: 0,
            noted: Noted::Zero,
            mark: 0,
            line: Line(1),
            byte: Byte(0),
            ended: false,
            waiting: true,
            closed: false,
        })
    }

    // The record last answered, the one being sought, or the one in error.
    pub fn position(self) -> Position
        ensures { result ≡ position_of self }
    {
        let line = self.line;
        let byte = self.byte;
        Position { line, byte }
    }

    // Not foreign: the state belongs to a window of n bytes.
    #[tactic(auto, unfolding(crate::specs::State::own))]
    pub fn owns(self, n: usize) -> bool
        ensures { result ≡ own self n }
    {
        let line = self.line;
        let byte = self.byte;
        if self.fill < self.start {
            return false;
        }
        let held = (self.fill - self.start) as u64;
        n == self.window
            && self.fill <= self.window
            && notes_fit(self.noted, self.start, self.fill, self.mark)
            && self.start as u64 <= byte.0
            && held <= Reader::LIMIT
            && byte.0 <= Reader::LIMIT - held
            && line.0 <= Reader::LINES
    }
}

// The noted line ends rise from start on and lie before fill, and the mark is past the last of them, up to fill.
#[tactic(auto, unfolding(crate::specs::State::notes_fit))]
fn notes_fit(noted: Noted, start: usize, fill: usize, mark: usize) -> bool
    ensures { result ≡ notes_fit start fill mark (listed noted) }
{
    match noted {
        Noted::Zero => start <= mark && mark <= fill,
        Noted::One(a) => start <= a && a < fill && a < mark && mark <= fill,
        Noted::Two(a, b) => {
            start <= a && a < fill && a < b && b < fill && b < mark && mark <= fill
        }
        Noted::Three(a, b, c) => {
            start <= a
                && a < fill
                && a < b
                && b < fill
                && b < c
                && c < fill
                && c < mark
                && mark <= fill
        }
        Noted::Four(a, b, c, d) => {
            start <= a
                && a < fill
                && a < b
                && b < fill
                && b < c
                && c < fill
                && c < d
                && d < fill
                && d < mark
                && mark <= fill
        }
    }
}

// The noted line ends, counted from start.
fn notes_from(noted: Noted, start: usize) -> Noted
    ensures { result ≡ notes_from start noted }
{
    match noted {
        Noted::Zero => Noted::Zero,
        Noted::One(a) => Noted::One(a.saturating_sub(start)),
        Noted::Two(a, b) => Noted::Two(a.saturating_sub(start), b.saturating_sub(start)),
        Noted::Three(a, b, c) => Noted::Three(
            a.saturating_sub(start),
            b.saturating_sub(start),
            c.saturating_sub(start),
        ),
        Noted::Four(a, b, c, d) => Noted::Four(
            a.saturating_sub(start),
            b.saturating_sub(start),
            c.saturating_sub(start),
            d.saturating_sub(start),
        ),
    }
}

impl Reader {
    // The same with t bytes more held.
    fn with_fill(self, t: usize) -> Reader
        requires { self.fill + t ≤ self.window }
        ensures { result ≡ filled self t }
    {
        Reader {
            fill: self.fill + t,
            ..self
        }
    }

    // The same with the kept bytes at the window's front.
    fn to_front(self) -> Reader
        ensures { result ≡ front_of self }
    {
        let start = self.start;
        Reader {
            start: 0,
            fill: self.fill.saturating_sub(start),
            noted: notes_from(self.noted, start),
            mark: self.mark.saturating_sub(start),
            ..self
        }
    }

    // A refusal: the state is as it was. Inlined: as a call of its own it cost the loop over next a fifth of its speed.
    #[inline(always)]
    fn refused<T>(self, refusal: Refusal) -> Outcome<T>
        ensures { result ≡ refused self refusal }
    {
        Outcome {
            state: self,
            answer: Err(refusal),
        }
    }

    // The state may be fed, or told the end: refused with 2, 4 or 3.
    fn ready(self, n: usize) -> Result<(), Refusal>
        ensures { result ≡ ready_of self n }
    {
        if !self.owns(n) {
            return Err(Refusal::Foreign);
        }
        if self.ended {
            return Err(Refusal::EndNoted);
        }
        if !self.waiting {
            return Err(Refusal::NotWaiting);
        }
        Ok(())
    }

    // What feed answers for a state that is ready: n is the chunk's length.
    fn taking(self, n: usize) -> Outcome<usize>
        requires { Own self self.window }
        ensures { result ≡ taking_of self n }
    {
        let fill = self.fill;
        let held = fill - self.start;
        let w = self.window;
        let t = n.min(w - held);
        let byte = self.byte;
        if Reader::LIMIT - byte.0 - (held as u64) < (t as u64) {
            return self.refused(Refusal::PastLimit);
        }
        if w - fill < n {
            let m = self.to_front();
            Outcome {
                state: m.with_fill(t),
                answer: Ok(t),
            }
        } else {
            Outcome {
                state: self.with_fill(t),
                answer: Ok(t),
            }
        }
    }

    // What feed answers, of the window's and the chunk's lengths alone.
    #[tactic(auto, using(crate::proofs::Feeding::feed_ready, crate::proofs::Feeding::feed_unready, crate::proofs::Owning::ready_own_self))]
    fn plan(self, w: usize, n: usize) -> Outcome<usize>
        ensures { result ≡ feed_of self w n }
    {
        match self.ready(w) {
            Ok(()) => self.taking(n),
            Err(refusal) => self.refused(refusal),
        }
    }

    // Takes as much of the chunk as there is room for beside the kept bytes, and stores it behind the held ones.
    pub fn feed(self, window: &mut [u8], chunk: &[u8]) -> Outcome<usize>
        ensures answer { result ≡ feed_of self (length window.old) (length chunk.now) }
        ensures bytes { window.new ≡ fed_window self window.old chunk.now }
    {
        let f = self.plan(window.len(), chunk.len());
        match f.answer {
            Ok(_) => {
                land(window, chunk, self.start, self.fill);
                f
            }
            Err(_) => f,
        }
    }

    // Notes the end of the input.
    #[tactic(auto, unfolding(crate::specs::Feed::finish_of))]
    pub fn finish(self, window: &[u8]) -> Outcome<()>
        ensures { result ≡ finish_of self (length window.now) }
    {
        match self.ready(window.len()) {
            Ok(()) => Outcome {
                state: Reader {
                    ended: true,
                    ..self
                },
                answer: Ok(()),
            },
            Err(refusal) => self.refused(refusal),
        }
    }
}

// As many of the chunk's bytes as the window has room for land from `at` on.
fn put(window: &mut [u8], at: usize, chunk: &[u8])
    requires { at ≤ length window.old }
    ensures { window.new ≡ put_of window.old at chunk.now }
{
    lines::copy_into(&mut window[at..], chunk);
}

// The chunk's bytes land behind the held ones, which move to the front first where the chunk is longer than the room behind them.
fn land(window: &mut [u8], chunk: &[u8], start: usize, fill: usize)
    requires { (start ≤ fill) × (fill ≤ length window.old) }
    ensures { window.new ≡ land_of window.old chunk.now start fill }
{
    if window.len() - fill < chunk.len() {
        lines::move_front(window, start, fill);
        put(window, fill - start, chunk);
    } else {
        put(window, fill, chunk);
    }
}

// The bytes from `from` up to `to` are at most a carriage return.
fn is_blank(s: &[u8], from: usize, to: usize) -> bool
    requires { (from ≤ to) × (to ≤ length s.now) }
    ensures { result ≡ is_empty (trim_cr (slice from to s.now)) }
{
    let t = lines::trim_cr(&s[from..to]);
    t.is_empty()
}

// Five numbers that are no record's.
const NOTHING: Record = Record {
    start: 0,
    seq: 0,
    sep: 0,
    qual: 0,
    end: 0,
};

// The held bytes, all of them searched, the record that is sought among them, and its line ends noted so far.
#[derive(Clone, Copy)]
struct Seen<'a> {
    held: &'a [u8],
    start: usize,
    line: Line,
    byte: Byte,
    noted: Noted,
    ghost fit: { notes_fit start (length held.now) (length held.now) (listed noted) ≡ true },
    // so low that the lines of a record's errors fit
    ghost low: { line.0 ≤ 1125899906842624 },
}

impl<'a> Seen<'a> {
    // The five numbers of a record with three or four line ends noted: without the fourth it ends where the bytes do.
    #[tactic(auto, using(crate::proofs::Owning::seen_three, crate::proofs::Owning::seen_four))]
    fn record(self) -> Record
        ensures { result ≡ numbers_of self.entry.noted self.entry.start (length self.entry.held.now) }
    {
        match self.noted {
            Noted::Four(a, b, c, end) => Record {
                start: self.start,
                seq: a + 1,
                sep: b + 1,
                qual: c + 1,
                end,
            },
            Noted::Three(a, b, c) => Record {
                start: self.start,
                seq: a + 1,
                sep: b + 1,
                qual: c + 1,
                end: self.held.len(),
            },
            Noted::Zero => NOTHING,
            Noted::One(_) => NOTHING,
            Noted::Two(_, _) => NOTHING,
        }
    }

    // Every piece of a tail with at most two line ends is empty after `trim_cr`.
    #[tactic(auto, using(crate::proofs::Owning::seen_none, crate::proofs::Owning::seen_one, crate::proofs::Owning::seen_two, crate::proofs::Nexting::blank_zero, crate::proofs::Nexting::blank_one, crate::proofs::Nexting::blank_two))]
    fn is_blank(self) -> bool
        requires { length (listed self.noted) < 3 }
        ensures { result ≡ all_blank (pieces self.entry.held.now self.entry.start (listed self.entry.noted)) }
    {
        let held = self.held;
        let start = self.start;
        let end = held.len();
        match self.noted {
            Noted::Zero => is_blank(held, start, end),
            Noted::One(a) => is_blank(held, start, a) & is_blank(held, a + 1, end),
            Noted::Two(a, b) => {
                is_blank(held, start, a) & (is_blank(held, a + 1, b) & is_blank(held, b + 1, end))
            }
            Noted::Three(_, _, _) => false,
            Noted::Four(_, _, _, _) => false,
        }
    }

    // The id of an unexpected end: only if there was a line end.
    #[tactic(auto, using(crate::proofs::Owning::seen_one, crate::proofs::Owning::seen_two, crate::proofs::Owning::seen_three, crate::proofs::Owning::seen_four))]
    fn id(self) -> Option<Span>
        ensures { result ≡ span_of (end_id self.entry.held.now self.entry.start (listed self.entry.noted)) }
    {
        match self.noted {
            Noted::Zero => None,
            Noted::One(a) => record::error_id(self.held, self.start, a + 1),
            Noted::Two(a, _) => record::error_id(self.held, self.start, a + 1),
            Noted::Three(a, _, _) => record::error_id(self.held, self.start, a + 1),
            Noted::Four(a, _, _, _) => record::error_id(self.held, self.start, a + 1),
        }
    }

    // The answer where the input ends with at most two line ends of a record noted.
    #[tactic(auto, using(crate::proofs::Nexting::tail_blank, crate::proofs::Nexting::tail_cut))]
    fn tail(self) -> Decided
        requires { length (listed self.noted) < 3 }
        ensures { result ≡ tail_of self.entry.held.now self.entry.start self.entry.line.0 self.entry.noted }
    {
        if self.is_blank() {
            return Decided {
                answer: Answer::End,
                waiting: false,
                closed: true,
            };
        }
        let line = self.line;
        let n = self.noted.count();
        let id = self.id();
        Decided {
            answer: Answer::UnexpectedEnd(Line(line.0 + n as u64), id),
            waiting: false,
            closed: true,
        }
    }

    // The answer for a record that is not valid: an invalid separator is told at its own line.
    fn invalid(self, invalid: Invalid) -> Answer
        ensures { result ≡ invalid_of self.entry.line.0 invalid }
    {
        let line = self.line;
        match invalid {
            Invalid::Start(x) => Answer::InvalidStart(x, line),
            Invalid::Separator(x, id) => Answer::InvalidSeparator(x, Line(line.0 + 2), id),
            Invalid::Lengths(m, n, id) => Answer::UnequalLengths(m, n, line, id),
        }
    }

    // The answer for a record whose numbers are known; the last one has no final LF, and closes.
    #[tactic(auto, unfolding(crate::specs::Inside::judged_of))]
    fn judged(self, r: Record, last: bool) -> Decided
        ensures { result ≡ judged_of self.entry.held.now r self.entry.line.0 self.entry.byte last }
    {
        match r.validate(self.held) {
            Ok(()) => Decided {
                answer: Answer::Record(r, self.byte),
                waiting: false,
                closed: last,
            },
            Err(invalid) => Decided {
                answer: self.invalid(invalid),
                waiting: false,
                closed: true,
            },
        }
    }

    // The answer: `window` is the window's length, `ended` whether the end is noted.
    #[tactic(auto, using(crate::proofs::Nexting::decided_limit, crate::proofs::Nexting::decided_more, crate::proofs::Nexting::decided_tail, crate::proofs::Nexting::decided_judged, crate::proofs::Owning::seen_start))]
    fn decide(self, window: usize, ended: bool) -> Decided
        ensures { result ≡ decided_of self.entry.held.now window self.entry.start self.entry.line.0 self.entry.byte ended self.entry.noted }
    {
        let held = self.held;
        let n = self.noted.count();
        let few = n < 4;
        if few & (window <= held.len() - self.start) {
            return Decided {
                answer: Answer::WindowLimit(self.line, self.byte),
                waiting: false,
                closed: true,
            };
        }
        if few & !ended {
            return Decided {
                answer: Answer::More,
                waiting: true,
                closed: false,
            };
        }
        if n < 3 {
            return self.tail();
        }
        self.judged(self.record(), few)
    }
}

impl Reader {
    // From a complete record that was answered to the one behind it.
    fn onward(self) -> Reader
        requires { Own self self.window }
        ensures { result ≡ onward_of self }
    {
        let noted = self.noted;
        match noted {
            Noted::Four(_, _, _, d) => {
                let start = self.start;
                let line = self.line;
                let byte = self.byte;
                let next = d + 1;
                Reader {
                    start: next,
                    noted: Noted::Zero,
                    mark: next,
                    line: Line(line.0 + 4),
                    byte: Byte(byte.0 + ((next - start) as u64)),
                    ..self
                }
            }
            Noted::Zero => self,
            Noted::One(_) => self,
            Noted::Two(_, _) => self,
            Noted::Three(_, _, _) => self,
        }
    }

    // Searches on, and answers.
    fn seeking(self, window: &[u8]) -> Outcome<Answer>
        requires { Seeks self (length window.now) }
        ensures { result ≡ seeking_of self window.now }
    {
        let held = &window[..self.fill];
        let f = record::search(held, self.noted, self.mark);
        let seen = Seen {
            held,
            start: self.start,
            line: self.line,
            byte: self.byte,
            noted: f.noted,
        };
        let d = seen.decide(self.window, self.ended);
        Outcome {
            state: Reader {
                noted: f.noted,
                mark: f.mark,
                waiting: d.waiting,
                closed: d.closed,
                ..self
            },
            answer: Ok(d.answer),
        }
    }

    // The next answer: a record, more input wanted, an error, window limit or End.
    pub fn next(self, window: &[u8]) -> Outcome<Answer>
        ensures { result ≡ next_of self window.now }
    {
        if !self.owns(window.len()) {
            return self.refused(Refusal::Foreign);
        }
        if self.closed {
            return Outcome {
                state: Reader {
                    waiting: false,
                    ..self
                },
                answer: Ok(Answer::End),
            };
        }
        let s = self.onward();
        s.seeking(window)
    }

    // To another line and byte, among the held bytes or outside them; a closed reading opens again.
    #[tactic(auto, using(crate::proofs::Seeking::seek_foreign, crate::proofs::Seeking::seek_far_line, crate::proofs::Seeking::seek_far_byte, crate::proofs::Seeking::seek_moves))]
    pub fn seek(self, window: &[u8], to: Position) -> Outcome<Place>
        ensures { result ≡ seek_of self (length window.now) to }
    {
        let line = to.line;
        let byte = to.byte;
        if !self.owns(window.len()) {
            return self.refused(Refusal::Foreign);
        }
        if Reader::LIMIT < line.0 || Reader::LIMIT < byte.0 {
            return self.refused(Refusal::PastLimit);
        }
        self.moved(to)
    }

    // To a place among the held bytes, if it is one.
    fn moved(self, to: Position) -> Outcome<Place>
        ensures { result ≡ moved_of self to }
    {
        let at = self.byte;
        let byte = to.byte;
        let base = at.0.saturating_sub(self.start as u64);
        if byte.0 < base {
            return self.outside(to);
        }
        let place = byte.0 - base;
        if (self.fill as u64) <= place {
            return self.outside(to);
        }
        let start = place as usize;
        Outcome {
            state: Reader {
                start,
                noted: Noted::Zero,
                mark: start,
                line: to.line,
                byte,
                waiting: false,
                closed: false,
                ..self
            },
            answer: Ok(Place::Inside),
        }
    }

    // Nothing is held: the input is to be fed from there on.
    fn outside(self, to: Position) -> Outcome<Place>
        ensures { result ≡ moved_by self to false }
    {
        Outcome {
            state: Reader {
                window: self.window,
                start: 0,
                fill: 0,
                noted: Noted::Zero,
                mark: 0,
                line: to.line,
                byte: to.byte,
                ended: false,
                waiting: true,
                closed: false,
            },
            answer: Ok(Place::FeedFrom(to.byte)),
        }
    }
}
