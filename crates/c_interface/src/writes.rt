// The plain writers. Each is lent an output and writes from a place on; the value is how many bytes.
ghost use Rattle.std.specs.Prelude.{◌≡◌, ◌≤◌, ◌<◌, length, ℕ, Result};
ghost use Rattle.std.specs.Fn.{FnOnceReturnsAtMut};
ghost use Rattle.std.proofs.lemmas.List.Edits.{sets};
ghost use Rattle.reading.specs.Answer.{five};
ghost use Rattle.writer.specs.declared.Refusal.{Refusal};
ghost use Rattle.writer.specs.Bytes.{given_desc};
ghost use Rattle.c_interface.specs.Told.{written_told};
ghost use Rattle.c_interface.specs.Writes.{Puts, untouched, write_to, write_parts, write_unchanged};

use crate::{FOREIGN, Told, VALUES};
use record::Record;
use writer::Refusal;

// A write, where there is room for the values: they tell what it answers.
fn write<F: FnOnce(&mut [u8]) -> Result<usize, Refusal>>(
    values: &mut [usize],
    out: &mut [u8],
    writer: F,
) -> usize
    requires { F.IsAlwaysCallable writer }
    ensures short { length values.old < 6 → Puts result values.new out.new (untouched values.old out.old) }
    ensures written { 6 ≤ length values.old → (w : Result ℕ Refusal)
        × FnOnceReturnsAtMut F.FnOnce writer out.old w out.new
        × (result ≡ (written_told w).code) × (values.new ≡ sets values.old 0 (written_told w).values) }
{
    if values.len() < VALUES {
        return FOREIGN;
    }
    Told::from(writer(out)).put(values)
}

// A record's four lines.
pub fn fq_write_to(
    values: &mut [usize],
    out: &mut [u8],
    at: usize,
    head: &[u8],
    seq: &[u8],
    qual: &[u8],
) -> usize
    ensures { Puts result values.new out.new (write_to values.old out.old at head.now seq.now qual.now) }
{
    write(
        values,
        out,
        |out| writer::write_to(out, at, head, seq, qual),
    )
}

// The same with a head of an id, and of a space and a description where one is given: C hands bytes and whether they are given.
pub fn fq_write_parts(
    values: &mut [usize],
    out: &mut [u8],
    at: usize,
    id: &[u8],
    desc: &[u8],
    given: bool,
    seq: &[u8],
    qual: &[u8],
) -> usize
    ensures { Puts result values.new out.new (write_parts values.old out.old at id.now (given_desc given desc.now) seq.now qual.now) }
{
    write(
        values,
        out,
        |out| writer::write_parts(out, at, id, given.then_some(desc), seq, qual),
    )
}

// The window's bytes from a record's start to its end, and LF. C hands the five numbers one by one.
pub fn fq_write_unchanged(
    values: &mut [usize],
    out: &mut [u8],
    at: usize,
    window: &[u8],
    start: usize,
    seq: usize,
    sep: usize,
    qual: usize,
    end: usize,
) -> usize
    ensures { Puts result values.new out.new (write_unchanged values.old out.old at window.now (five start seq sep qual end)) }
{
    let r = Record {
        start,
        seq,
        sep,
        qual,
        end,
    };
    write(
        values,
        out,
        |out| writer::write_unchanged(out, at, window, r),
    )
}
