// The library as C and Rust call it: its calls on numbers and slices, each under a plain name. c_interface_c exports them.
// A state is lent as 14 numbers, what a call answers as a code and 6 numbers; c_interface.h has their order. They go loose, with the window and the table beside them, as C has these arguments.
#![tactic(auto)]

pub mod views;
pub mod writes;

ghost use Rattle.std.specs.Prelude.{◌≡◌, ◌≤◌, ◌/◌, length, List, IfSome, IfNone};
ghost use Rattle.std.specs.Borrow.{MutBor};
ghost use Rattle.std.proofs.lemmas.List.Edits.{sets};
ghost use Rattle.c_interface.specs.declared.Told.{Told};
ghost use Rattle.c_interface.specs.Packed.{places_of, numbers_of, notes_in, unpacked_of};
ghost use Rattle.c_interface.specs.Told.{telling, bounds_of, Tells};
ghost use Rattle.reader.specs.State.{number_of};
ghost use Rattle.c_interface.specs.Calls.{left_of, foreign_of, Leaves, Begins, open_call, next_call, feed_call, feed_window, finish_call, seek_call, set_call, set_table, position_call};

use reader::{Answer, Byte, Line, Outcome, Place, Position, Reader};
use record::{Noted, Span};
use sets::Reply;

// How many numbers are a state.
pub const STATE: usize = 14;

// How many numbers are the values of an answer.
pub const VALUES: usize = 6;

// The codes, as c_interface.h has them; of the refusals' only that of a foreign state.
pub const DONE: usize = 0;

pub const FOREIGN: usize = 2;

pub const WINDOW_LIMIT: usize = 7;

pub const INVALID_START: usize = 8;

pub const INVALID_SEPARATOR: usize = 9;

pub const UNEQUAL_LENGTHS: usize = 10;

pub const UNEXPECTED_END: usize = 11;

pub const MORE: usize = 15;

pub const END: usize = 16;

pub const FEED_FROM: usize = 17;

pub const ABSENT: usize = 18;

// A code, and the values beside it in document 01's order; those that it does not have are 0.
#[derive(Clone, Copy)]
pub struct Told {
    pub code: usize,
    pub values: [usize; VALUES],
}

// The notes by their count; the places that are not noted must be 0.
#[tactic(auto, unfolding(crate::specs::Packed::notes_in))]
fn notes_in(count: usize, a: usize, b: usize, c: usize, d: usize) -> Option<Noted>
    ensures { result ≡ notes_in count a b c d }
{
    match (count, a, b, c, d) {
        (0, 0, 0, 0, 0) => Some(Noted::Zero),
        (1, a, 0, 0, 0) => Some(Noted::One(a)),
        (2, a, b, 0, 0) => Some(Noted::Two(a, b)),
        (3, a, b, c, 0) => Some(Noted::Three(a, b, c)),
        (4, a, b, c, d) => Some(Noted::Four(a, b, c, d)),
        _ => None,
    }
}

// The count of notes, and their places.
fn places_of(noted: Noted) -> [usize; 5]
    ensures { result ≡ places_of noted }
{
    match noted {
        Noted::Zero => [0, 0, 0, 0, 0],
        Noted::One(a) => [1, a, 0, 0, 0],
        Noted::Two(a, b) => [2, a, b, 0, 0],
        Noted::Three(a, b, c) => [3, a, b, c, 0],
        Noted::Four(a, b, c, d) => [4, a, b, c, d],
    }
}

// The state that is lent, if its flags are 0 or 1, its notes are some and there is room for an answer's values too.
#[tactic(auto, unfolding(crate::specs::Packed::unpacked_of, crate::specs::Packed::state_in))]
fn unpack(state: &[usize], values: usize) -> Option<Reader>
    ensures { result ≡ unpacked_of state.now values }
{
    if values < VALUES {
        return None;
    }
    let &[
        window,
        start,
        fill,
        count,
        a,
        b,
        c,
        d,
        mark,
        line,
        byte,
        ended,
        waiting,
        closed,
        ..
    ] = state
    else {
        return None;
    };
    if (1 < ended) | (1 < waiting) | (1 < closed) {
        return None;
    }
    let noted = notes_in(count, a, b, c, d)?;
    Some(Reader {
        window,
        start,
        fill,
        noted,
        mark,
        line: Line(line as u64),
        byte: Byte(byte as u64),
        ended: ended == 1,
        waiting: waiting == 1,
        closed: closed == 1,
    })
}

// The numbers of a state.
fn pack(state: &mut [usize], s: Reader)
    requires { 14 ≤ length state.old }
    ensures { state.new ≡ sets state.old 0 (numbers_of s) }
{
    let Line(line) = s.line;
    let Byte(byte) = s.byte;
    let [count, a, b, c, d] = places_of(s.noted);
    state[..STATE].copy_from_slice(&[
        s.window,
        s.start,
        s.fill,
        count,
        a,
        b,
        c,
        d,
        s.mark,
        line as usize,
        byte as usize,
        usize::from(s.ended),
        usize::from(s.waiting),
        usize::from(s.closed),
    ]);
}

// Whether there is a range, and where it starts and ends.
fn bounds_of(id: Option<Span>) -> [usize; 3]
    ensures { result ≡ bounds_of id }
{
    match id {
        Some(Span { from, to }) => [1, from, to],
        None => [0, 0, 0],
    }
}

impl Told {
    fn new(code: usize, values: [usize; VALUES]) -> Told
        ensures { result ≡ telling code values }
    {
        Told { code, values }
    }

    // The values are stored; answers the code.
    fn put(self, values: &mut [usize]) -> usize
        requires { 6 ≤ length values.old }
        ensures stored { values.new ≡ sets values.old 0 self.values }
        ensures code { result ≡ self.code }
    {
        values[..VALUES].copy_from_slice(&self.values);
        self.code
    }
}

impl From<Answer> for Told {
    ghost use Rattle.c_interface.specs.Told.{answer_told};

    ghost from_gives = { λ answer told. told ≡ answer_told answer };

    fn from(answer: Answer) -> Told {
        match answer {
            Answer::Record(r, Byte(byte)) => {
                Told::new(DONE, [r.start, r.seq, r.sep, r.qual, r.end, byte as usize])
            }
            Answer::More => Told::new(MORE, [0; VALUES]),
            Answer::WindowLimit(Line(line), Byte(byte)) => {
                Told::new(WINDOW_LIMIT, [line as usize, byte as usize, 0, 0, 0, 0])
            }
            Answer::InvalidStart(found, Line(line)) => {
                Told::new(
                    INVALID_START,
                    [usize::from(found), line as usize, 0, 0, 0, 0],
                )
            }
            Answer::InvalidSeparator(found, Line(line), id) => {
                let [given, from, to] = bounds_of(id);
                Told::new(
                    INVALID_SEPARATOR,
                    [usize::from(found), line as usize, given, from, to, 0],
                )
            }
            Answer::UnequalLengths(seq, qual, Line(line), id) => {
                let [given, from, to] = bounds_of(id);
                Told::new(UNEQUAL_LENGTHS, [seq, qual, line as usize, given, from, to])
            }
            Answer::UnexpectedEnd(Line(line), id) => {
                let [given, from, to] = bounds_of(id);
                Told::new(UNEXPECTED_END, [line as usize, given, from, to, 0, 0])
            }
            Answer::End => Told::new(END, [0; VALUES]),
        }
    }
}

// How many bytes feed took or a writer wrote.
impl From<usize> for Told {
    ghost use Rattle.c_interface.specs.Told.{count_told};

    ghost from_gives = { λ count told. told ≡ count_told count };

    fn from(count: usize) -> Told {
        Told::new(DONE, [count, 0, 0, 0, 0, 0])
    }
}

// Finish noted the end.
impl From<()> for Told {
    ghost use Rattle.c_interface.specs.Told.{ending_told};

    ghost from_gives = { λ done told. told ≡ ending_told done };

    fn from(_: ()) -> Told {
        Told::new(DONE, [0; VALUES])
    }
}

impl From<Place> for Told {
    ghost use Rattle.c_interface.specs.Told.{place_told};

    ghost from_gives = { λ place told. told ≡ place_told place };

    fn from(place: Place) -> Told {
        match place {
            Place::Inside => Told::new(DONE, [0; VALUES]),
            Place::FeedFrom(Byte(byte)) => Told::new(FEED_FROM, [byte as usize, 0, 0, 0, 0, 0]),
        }
    }
}

impl From<Reply> for Told {
    ghost use Rattle.c_interface.specs.Told.{reply_told};

    ghost from_gives = { λ reply told. told ≡ reply_told reply };

    fn from(reply: Reply) -> Told {
        match reply {
            Reply::Count(count) => Told::new(DONE, [count, 0, 0, 0, 0, 0]),
            Reply::Other(answer) => Told::from(answer),
        }
    }
}

// A refusal's code is its number, with no values.
impl<A: Into<Told>, R: Into<u8>> From<Result<A, R>> for Told {
    ghost use Rattle.c_interface.specs.Told.{Tells};

    ghost from_gives = { λ answer told. Tells A.converts R.converts answer told };

    fn from(answer: Result<A, R>) -> Told {
        match answer {
            Ok(value) => value.into(),
            Err(refusal) => {
                let number: u8 = refusal.into();
                Told::new(usize::from(number), [0; VALUES])
            }
        }
    }
}

// A call on the state that is lent: the state and the values after it, and its code. Numbers that are no state are refused.
fn call_on<M, A: Into<Told>, F: FnOnce(Reader, &mut [M]) -> Outcome<A>>(
    state: &mut [usize],
    values: &mut [usize],
    lent: &mut [M],
    call: F,
) -> usize
    requires { F.IsAlwaysCallable call }
    ensures called { IfSome (unpacked_of state.old (length values.old))
        (λ s. (p : MutBor (List M)) × (q : MutBor (List M)) × (x : _) × (t : Told)
        × F.post call s p x q × (p.now ≡ lent.old) × (q.now ≡ lent.new)
        × Tells A.converts (λ e n. n ≡ number_of e) x.answer t × Leaves result state.new values.new (left_of state.old values.old x.state t)) }
    ensures foreign { IfNone (unpacked_of state.old (length values.old)) (Leaves result state.new values.new (foreign_of state.old values.old)) }
    ensures untouched { IfNone (unpacked_of state.old (length values.old)) (lent.new ≡ lent.old) }
{
    match unpack(state, values.len()) {
        Some(reader) => {
            let outcome = call(reader, lent);
            pack(state, outcome.state);
            Told::from(outcome.answer).put(values)
        }
        None => FOREIGN,
    }
}

// The same for a call that is lent nothing to write.
fn call<A: Into<Told>, F: FnOnce(Reader) -> Outcome<A>>(
    state: &mut [usize],
    values: &mut [usize],
    call: F,
) -> usize
    requires { F.IsAlwaysCallable call }
    ensures called { IfSome (unpacked_of state.old (length values.old))
        (λ s. (x : _) × (t : Told) × F.post call s x
        × Tells A.converts (λ e n. n ≡ number_of e) x.answer t × Leaves result state.new values.new (left_of state.old values.old x.state t)) }
    ensures foreign { IfNone (unpacked_of state.old (length values.old)) (Leaves result state.new values.new (foreign_of state.old values.old)) }
{
    let mut nothing: [u8; 0] = [];
    call_on(
        state,
        values,
        &mut nothing,
        |reader, _|
            requires { F.pre call reader }
            ensures { F.post call reader result }
        { call(reader) },
    )
}

// A fresh state for windows of this length.
pub fn fq_open(state: &mut [usize], window: usize) -> usize
    ensures { Begins result state.new (open_call state.old window) }
{
    if state.len() < STATE {
        return FOREIGN;
    }
    match Reader::open(window) {
        Ok(reader) => {
            pack(state, reader);
            DONE
        }
        Err(refusal) => usize::from(u8::from(refusal)),
    }
}

// Takes from the chunk; the value is how many bytes.
pub fn fq_feed(state: &mut [usize], values: &mut [usize], window: &mut [u8], chunk: &[u8]) -> usize
    ensures answer { Leaves result state.new values.new (feed_call state.old values.old (length window.old) (length chunk.now)) }
    ensures bytes { window.new ≡ feed_window state.old values.old window.old chunk.now }
{
    call_on(
        state,
        values,
        window,
        |reader, window| reader.feed(window, chunk),
    )
}

// Notes the end of the input.
pub fn fq_finish(state: &mut [usize], values: &mut [usize], window: &[u8]) -> usize
    ensures { Leaves result state.new values.new (finish_call state.old values.old (length window.now)) }
{
    call(state, values, |reader| reader.finish(window))
}

// The next answer.
pub fn fq_next(state: &mut [usize], values: &mut [usize], window: &[u8]) -> usize
    ensures { Leaves result state.new values.new (next_call state.old values.old window.now) }
{
    call(state, values, |reader| reader.next(window))
}

// To another line and byte; with FEED_FROM the value is the byte to feed from.
pub fn fq_seek(
    state: &mut [usize],
    values: &mut [usize],
    window: &[u8],
    line: u64,
    byte: u64,
) -> usize
    ensures { Leaves result state.new values.new (seek_call state.old values.old (length window.now) line byte) }
{
    let to = Position {
        line: Line(line),
        byte: Byte(byte),
    };
    call(state, values, |reader| reader.seek(window, to))
}

// The position: its line and its byte.
pub fn fq_position(state: &[usize], values: &mut [usize]) -> usize
    ensures { Leaves result state.now values.new (position_call state.now values.old) }
{
    match unpack(state, values.len()) {
        Some(reader) => {
            let Line(line) = reader.line;
            let Byte(byte) = reader.byte;
            Told::new(DONE, [line as usize, byte as usize, 0, 0, 0, 0]).put(values)
        }
        None => FOREIGN,
    }
}

// Lists as many records as there are and the table has whole entries for; the value is how many.
pub fn fq_read_record_set(
    state: &mut [usize],
    values: &mut [usize],
    window: &[u8],
    table: &mut [usize],
) -> usize
    ensures answer { Leaves result state.new values.new (set_call state.old values.old window.now (length table.old / 5) (length table.old / 5)) }
    ensures numbers { table.new ≡ set_table state.old values.old window.now (length table.old / 5) table.old }
{
    call_on(state, values, table, |reader, table| {
        sets::read_record_set(reader, window, table)
    })
}

// Lists at most so many records.
pub fn fq_read_record_set_exact(
    state: &mut [usize],
    values: &mut [usize],
    window: &[u8],
    table: &mut [usize],
    wanted: usize,
) -> usize
    ensures answer { Leaves result state.new values.new (set_call state.old values.old window.now (length table.old / 5) wanted) }
    ensures numbers { table.new ≡ set_table state.old values.old window.now wanted table.old }
{
    call_on(state, values, table, |reader, table| {
        sets::read_record_set_exact(reader, window, table, wanted)
    })
}
