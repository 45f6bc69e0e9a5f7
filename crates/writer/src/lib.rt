// Writers of records into lent output, and checked writers, which refuse fields that would not read back.
// Each takes any place and any lengths; a refusal writes nothing. An output and a place in it go side by side, as C and document 01 hand them.
#![tactic(auto)]

ghost use Rattle.std.specs.Prelude.{◌≡◌, ◌+◌, ◌<◌, ◌≤◌, length, MatchOption, option_copied};
ghost use Rattle.std.proofs.Math.Option.{none};
ghost use Rattle.record.specs.Check.{five_of};
ghost use Rattle.writer.specs.Bytes.{joined, laid};
ghost use Rattle.writer.specs.Fields.{good_field, good_fields, good_parts};
ghost use Rattle.writer.specs.Answer.{number_of, Writes};
ghost use Rattle.writer.specs.Promises.{WritesTo, WritesParts, WritesUnchanged, WritesToChecked, WritesPartsChecked};

use record::{Record, id_length};

// Why a writer wrote nothing.
#[derive(Clone, Copy, Debug, PartialEq, Eq)]
pub enum Refusal {
    // The output has too little room from the place on, or the place is past its end.
    NoRoom = 12,
    // A field holds a line end or ends in a carriage return, the lengths differ, or an id given apart holds a space.
    BadFields = 13,
    // The five numbers are those of no record in the window.
    NoRecord = 14,
}

impl From<Refusal> for u8 {
    ghost from_gives = { λ refusal number. number ≡ number_of refusal };

    fn from(refusal: Refusal) -> u8 {
        refusal as u8
    }
}

// What is left of n bytes behind the parts, if they fit in from place `at` on.
#[tactic(auto, using(crate::proofs::Laws::joined_within))]
fn left_behind(n: usize, at: usize, parts: &[&[u8]]) -> Option<usize>
    ensures { MatchOption result (n < at + length (joined parts.now)) (λ left. at + length (joined parts.now) + left ≡ n) }
{
    let mut left = n.checked_sub(at)?;
    for part in parts {
        left = left.checked_sub(part.len())?;
    }
    Some(left)
}

// The parts, one behind the other from place `at` on.
#[tactic(auto, using(crate::proofs::Laws::joined_within, crate::proofs::Laws::laid_none))]
fn put_all(out: &mut [u8], at: usize, parts: &[&[u8]])
    requires { at + length (joined parts.now) ≤ length out.old }
    ensures { out.new ≡ laid out.old at (joined parts.now) }
{
    let mut place = at;
    for part in parts {
        lines::copy_into(&mut out[place..], part);
        place += part.len();
    }
}

// Writes the parts, one behind the other from place `at` on; refused if the output has too little room from there.
pub fn write_all(out: &mut [u8], at: usize, parts: &[&[u8]]) -> Result<usize, Refusal>
    ensures { Writes none out.old at (joined parts.now) result out.new }
{
    let n = out.len();
    let left = left_behind(n, at, parts).ok_or(Refusal::NoRoom)?;
    put_all(out, at, parts);
    Ok(n - at - left)
}

// Writes a record's four lines from place `at` on.
#[tactic(auto, unfolding(crate::specs::Bytes::record_bytes))]
pub fn write_to(
    out: &mut [u8],
    at: usize,
    head: &[u8],
    seq: &[u8],
    qual: &[u8],
) -> Result<usize, Refusal>
    ensures { WritesTo out.old at head.now seq.now qual.now result out.new }
{
    write_all(out, at, &[b"@", head, b"\n", seq, b"\n+\n", qual, b"\n"])
}

// The same with a head of an id, and of a space and a description where one is given.
#[tactic(auto, unfolding(crate::specs::Bytes::record_bytes))]
pub fn write_parts(
    out: &mut [u8],
    at: usize,
    id: &[u8],
    desc: Option<&[u8]>,
    seq: &[u8],
    qual: &[u8],
) -> Result<usize, Refusal>
    ensures { WritesParts out.old at id.now (option_copied desc.entry) seq.now qual.now result out.new }
{
    match desc {
        None => write_to(out, at, id, seq, qual),
        Some(desc) => write_all(
            out,
            at,
            &[b"@", id, b" ", desc, b"\n", seq, b"\n+\n", qual, b"\n"],
        ),
    }
}

// Writes the window's bytes from a record's start to its end, and LF; refused if the five numbers fail the view test.
#[tactic(auto, using(crate::proofs::Laws::laid_none, record::proofs::Views::fits_asked), unfolding(crate::specs::Answer::answer))]
pub fn write_unchanged(
    out: &mut [u8],
    at: usize,
    window: &[u8],
    r: Record,
) -> Result<usize, Refusal>
    ensures { WritesUnchanged out.old at window.now (five_of r) result out.new }
{
    if !r.fits(window.len()) {
        return Err(Refusal::NoRecord);
    }
    write_all(out, at, &[&window[r.start..r.end], b"\n"])
}

// The test of one field: it holds no LF and doesn't end in 13.
#[tactic(auto, using(crate::proofs::Laws::field_line, crate::proofs::Laws::field_whole, crate::proofs::Laws::last_asked))]
fn good_field(s: &[u8]) -> bool
    ensures { result ≡ good_field s.now }
{
    lines::find_line(s, 0).is_none() && s.last() != Some(&b'\r')
}

// The fields are good, and the sequence is as long as the quality.
#[tactic(auto, unfolding(crate::specs::Fields::good_fields))]
fn good_fields(head: &[u8], seq: &[u8], qual: &[u8]) -> bool
    ensures { result ≡ good_fields head.now seq.now qual.now }
{
    good_field(head) && good_field(seq) && good_field(qual) && seq.len() == qual.len()
}

// As `write_to`; before that, refused if a field isn't good or the lengths differ.
#[tactic(auto, using(crate::proofs::Laws::laid_none), unfolding(crate::specs::Answer::answer))]
pub fn write_to_checked(
    out: &mut [u8],
    at: usize,
    head: &[u8],
    seq: &[u8],
    qual: &[u8],
) -> Result<usize, Refusal>
    ensures { WritesToChecked out.old at head.now seq.now qual.now result out.new }
{
    if !good_fields(head, seq, qual) {
        return Err(Refusal::BadFields);
    }
    write_to(out, at, head, seq, qual)
}

// The same of an id and, where it is given, a description: each is a field, and the id holds no space.
#[tactic(auto, unfolding(crate::specs::Fields::good_parts))]
fn good_parts(id: &[u8], desc: Option<&[u8]>, seq: &[u8], qual: &[u8]) -> bool
    ensures { result ≡ good_parts id.now (option_copied desc.entry) seq.now qual.now }
{
    good_fields(id, seq, qual) && desc.is_none_or(good_field) && id_length(id) == id.len()
}

// As `write_parts`; before that, refused if a field isn't good, the lengths differ or the id holds a space.
#[tactic(auto, using(crate::proofs::Laws::laid_none), unfolding(crate::specs::Answer::answer))]
pub fn write_parts_checked(
    out: &mut [u8],
    at: usize,
    id: &[u8],
    desc: Option<&[u8]>,
    seq: &[u8],
    qual: &[u8],
) -> Result<usize, Refusal>
    ensures { WritesPartsChecked out.old at id.now (option_copied desc.entry) seq.now qual.now result out.new }
{
    if !good_parts(id, desc, seq, qual) {
        return Err(Refusal::BadFields);
    }
    write_parts(out, at, id, desc, seq, qual)
}
