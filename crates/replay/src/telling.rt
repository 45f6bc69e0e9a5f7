// Answers as text, in the words of the list. Places are told as offsets in the input, bytes as hexadecimal digits.
use reader::{Answer, Byte, Reader};
use record::{Record, Span};
use std::fmt;
use std::fmt::Display;
use writer::Refusal;

// Each test program tells answers in words of its own, which a shared telling could not say.
// A write that fails is let go: what it leaves out is missing where the output is compared.
// Not inlined: a caller would have room for each text that it prints on its own stack.
#[inline(never)]
pub fn text(rt: &impl Print, told: impl Display + Drop) {
    let _ = rt.print(told);
}

// Bytes that are printed as hexadecimal digits.
#[derive(Clone, Copy)]
struct Hex<'a>(&'a [u8]);

impl Display for Hex<'_> {
    fn fmt<W: fmt::Write>(&self, f: &mut fmt::Formatter<W>) -> fmt::Result {
        for b in self.0 {
            write!(f, "{b:02x}")?;
        }
        Ok(())
    }
}

// The state's position, and the end of the text's line.
pub fn position(rt: &impl Print, state: Reader) {
    let p = state.position();
    text(rt, format_args!(" at {} {}\n", p.line.0, p.byte.0));
}

// `rt` and `window` go together here; `Run` holds them, and a second struct of them is no plainer.
pub fn tell(rt: &impl Print, answer: Answer, window: &[u8]) {
    match answer {
        Answer::Record(r, byte) => found(rt, r, byte, window),
        Answer::More => text(rt, "more"),
        Answer::WindowLimit(l, b) => text(rt, format_args!("limit {} {}", l.0, b.0)),
        Answer::InvalidStart(x, l) => text(rt, format_args!("start {x} {}", l.0)),
        Answer::InvalidSeparator(x, l, id) => {
            text(rt, format_args!("separator {x} {}", l.0));
            id_or_none(rt, id, window);
        }
        Answer::UnequalLengths(m, n, l, id) => {
            text(rt, format_args!("lengths {m} {n} {}", l.0));
            id_or_none(rt, id, window);
        }
        Answer::UnexpectedEnd(l, id) => {
            text(rt, format_args!("unexpected {}", l.0));
            id_or_none(rt, id, window);
        }
        Answer::End => text(rt, "end"),
    }
}

// A record: where it, its sequence and its quality start, where it ends, and its fields.
pub fn found(rt: &impl Print, r: Record, byte: Byte, window: &[u8]) {
    text(rt, "record");
    let front = byte.0.wrapping_sub(r.start as u64);
    for place in [r.start, r.seq, r.qual, r.end] {
        text(rt, format_args!(" {}", front.wrapping_add(place as u64)));
    }
    let (head, seq, qual) = (r.head(window), r.seq(window), r.qual(window));
    text(
        rt,
        format_args!(" head {} seq {} qual {}", Hex(head), Hex(seq), Hex(qual)),
    );
    text(rt, format_args!(" id {}", Hex(r.id_bytes(window))));
    if let Some(desc) = r.desc(window) {
        text(rt, format_args!(" desc {}", Hex(desc)));
    }
}

fn id_or_none(rt: &impl Print, id: Option<Span>, window: &[u8]) {
    match id {
        None => text(rt, " no id"),
        Some(span) => {
            if let Some(id) = window.get(span.from..span.to) {
                text(rt, format_args!(" id {}", Hex(id)));
            }
        }
    }
}

// What the three writers make of a record, in fixed memory with no heap: not inlined, so that a reading has none of it.
#[inline(never)]
pub fn written(rt: &impl Print, r: Record, window: &[u8]) {
    let mut out = [0u8; 1024];
    let head = r.head(window);
    let seq = r.seq(window);
    let qual = r.qual(window);
    let to = writer::write_to(&mut out, 0, head, seq, qual);
    line_of(rt, "to", to, &out);
    let id = r.id_bytes(window);
    let desc = r.desc(window);
    let parts = writer::write_parts(&mut out, 0, id, desc, seq, qual);
    line_of(rt, "parts", parts, &out);
    let unchanged = writer::write_unchanged(&mut out, 0, window, r);
    line_of(rt, "unchanged", unchanged, &out);
}

fn line_of(rt: &impl Print, word: &str, answer: Result<usize, Refusal>, out: &[u8]) {
    match answer {
        Ok(n) => {
            let bytes = out.get(..n).unwrap_or(out);
            text(rt, format_args!("{word} {}\n", Hex(bytes)));
        }
        Err(refusal) => text(rt, format_args!("refused {}\n", u8::from(refusal))),
    }
}
