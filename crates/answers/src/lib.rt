// The line of text for each answer of a reader, and for its position. Offsets in a line are absolute.
// Each function takes any state, answer, output and place; a line that does not fit is refused, and nothing is written.
#![tactic(auto)]

ghost use Rattle.std.specs.Prelude.{◌≡◌, ◌≤◌, ◌++◌, length};
ghost use Rattle.std.proofs.Math.Option.{none};
ghost use Rattle.reading.specs.Marked.{bytes};
ghost use Rattle.reader.specs.Seek.{base};
ghost use Rattle.writer.specs.Answer.{Writes};
ghost use Rattle.text.specs.Line.{line_bytes};
ghost use Rattle.answers.specs.Told.{offset as told_offset, id_values, record_values, line_at, answer_line, position_line};

use reader::{Answer, Line, Reader};
use record::{Record, Span};
use text::put_line;
use writer::Refusal;

// The offset in the input of a place in the window, whose first byte has the offset `front`.
fn offset(front: u64, place: usize) -> u64
    ensures { result ≡ told_offset front place }
{
    front.wrapping_add(place as u64)
}

// The offset in the input of the window's first byte.
fn front_of(state: Reader) -> u64
    ensures { result ≡ base state }
{
    let byte = state.byte;
    byte.0.saturating_sub(state.start as u64)
}

// A line and the offset of the window's first byte go to two functions only, so that a struct is no plainer.
fn put_record(
    out: &mut [u8],
    at: usize,
    line: Line,
    front: u64,
    r: Record,
) -> Result<usize, Refusal>
    ensures { Writes none out.old at (line_bytes (bytes "record") (record_values line.0 front r)) result out.new }
{
    let values = [
        line.0,
        offset(front, r.start),
        offset(front, r.seq),
        offset(front, r.sep),
        offset(front, r.qual),
        offset(front, r.end),
    ];
    put_line(out, at, b"record", &values)
}

// An error's line: its values, and the id's range where there is one. Six values are the most: fixed memory, no heap.
fn put_error(
    out: &mut [u8],
    at: usize,
    values: &[u64],
    id: Option<Span>,
    front: u64,
) -> Result<usize, Refusal>
    requires { length values.now ≤ 4 }
    ensures { Writes none out.old at (line_bytes (bytes "error") (values.now ++ id_values front id)) result out.new }
{
    match id {
        None => put_line(out, at, b"error", values),
        Some(span) => {
            let mut all = [0u64; 6];
            let k = values.len();
            all[..k].copy_from_slice(values);
            all[k] = offset(front, span.from);
            all[k + 1] = offset(front, span.to);
            let n = k + 2;
            put_line(out, at, b"error", &all[..n])
        }
    }
}

// The line of an answer: `line` is that of the record that was answered, `front` the offset of the window's first byte.
fn put_told(
    out: &mut [u8],
    at: usize,
    line: Line,
    front: u64,
    answer: Answer,
) -> Result<usize, Refusal>
    ensures { Writes none out.old at (line_at line.0 front answer) result out.new }
{
    match answer {
        Answer::Record(r, _) => put_record(out, at, line, front, r),
        Answer::More => put_line(out, at, b"request", &[]),
        Answer::WindowLimit(l, b) => put_error(out, at, &[7, l.0, b.0], None, front),
        Answer::InvalidStart(x, l) => put_error(out, at, &[8, l.0, u64::from(x)], None, front),
        Answer::InvalidSeparator(x, l, id) => {
            put_error(out, at, &[9, l.0, u64::from(x)], id, front)
        }
        Answer::UnequalLengths(m, n, l, id) => {
            put_error(out, at, &[10, l.0, m as u64, n as u64], id, front)
        }
        Answer::UnexpectedEnd(l, id) => put_error(out, at, &[11, l.0], id, front),
        Answer::End => put_line(out, at, b"end", &[]),
    }
}

// The line of what `next` answered, in absolute offsets, or of its refusal's number, which may be any; `state` is that after it.
#[tactic(auto, unfolding(crate::specs::Told::answer_line))]
pub fn put_answer(
    out: &mut [u8],
    at: usize,
    state: Reader,
    answer: Result<Answer, u8>,
) -> Result<usize, Refusal>
    ensures { Writes none out.old at (answer_line state answer) result out.new }
{
    match answer {
        Ok(answer) => put_told(out, at, state.line, front_of(state), answer),
        Err(number) => put_line(out, at, b"error", &[u64::from(number)]),
    }
}

// The line of the state's position.
#[tactic(auto, unfolding(crate::specs::Told::position_line))]
pub fn put_position(out: &mut [u8], at: usize, state: Reader) -> Result<usize, Refusal>
    ensures { Writes none out.old at (position_line state) result out.new }
{
    let line = state.line;
    let byte = state.byte;
    put_line(out, at, b"position", &[line.0, byte.0])
}
