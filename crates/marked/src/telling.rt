// One line of text for each answer. Places in the window are told as offsets in the input.
use reader::{Answer, Byte, Reader, Refusal};
use record::{Record, Span};
use std::fmt::Display;

// Each test program tells answers in words of its own, which a shared telling could not say.
// A write that fails is let go: what it leaves out is missing where the output is compared.
// Not inlined: a caller would have room for each text that it prints on its own stack.
#[inline(never)]
pub fn text(rt: &impl Print, told: impl Display + Drop) {
    let _ = rt.print(told);
}

// What the reader answered when it came to this state, its position, and the end of the text's line.
pub fn tell(rt: &impl Print, answer: Result<Answer, Refusal>, state: Reader, window: &[u8]) {
    match answer {
        Ok(answer) => answered(rt, answer, front(state.byte, state.start), window),
        Err(refusal) => text(rt, format_args!("refused {}", u8::from(refusal))),
    }
    let p = state.position();
    text(rt, format_args!(" at {} {}\n", p.line.0, p.byte.0));
}

// The offset in the input of the window's first byte, where the byte at `start` has the offset `byte`.
fn front(byte: Byte, start: usize) -> u64 {
    byte.0.wrapping_sub(start as u64)
}

fn answered(rt: &impl Print, answer: Answer, front: u64, window: &[u8]) {
    match answer {
        Answer::Record(r, byte) => found(rt, r, byte, window),
        Answer::More => text(rt, "request"),
        Answer::WindowLimit(l, b) => { text(rt, format_args!("error 7 line {} byte {}", l.0, b.0)) }
        Answer::InvalidStart(x, l) => text(rt, format_args!("error 8 found {x} line {}", l.0)),
        Answer::InvalidSeparator(x, l, id) => {
            text(rt, format_args!("error 9 found {x} line {}", l.0));
            id_or_none(rt, id, front);
        }
        Answer::UnequalLengths(m, n, l, id) => {
            text(rt, format_args!("error 10 lengths {m} {n} line {}", l.0));
            id_or_none(rt, id, front);
        }
        Answer::UnexpectedEnd(l, id) => {
            text(rt, format_args!("error 11 line {}", l.0));
            id_or_none(rt, id, front);
        }
        Answer::End => text(rt, "end"),
    }
}

// A record's five numbers, and the trimmed lengths of its sequence and quality.
fn found(rt: &impl Print, r: Record, byte: Byte, window: &[u8]) {
    text(rt, "record");
    let front = front(byte, r.start);
    for place in [r.start, r.seq, r.sep, r.qual, r.end] {
        text(rt, format_args!(" {}", offset(front, place)));
    }
    let (seq, qual) = (r.seq(window), r.qual(window));
    text(rt, format_args!(" lengths {} {}", seq.len(), qual.len()));
}

// The offset in the input of a place in the window.
fn offset(front: u64, place: usize) -> u64 {
    front.wrapping_add(place as u64)
}

fn id_or_none(rt: &impl Print, id: Option<Span>, front: u64) {
    match id {
        None => text(rt, " no id"),
        Some(span) => {
            let (from, to) = (offset(front, span.from), offset(front, span.to));
            text(rt, format_args!(" id {from} {to}"));
        }
    }
}
