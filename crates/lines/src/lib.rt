// Leaves of the reader: the line search, `trim_cr`, the copy of bytes into lent memory, the move of kept bytes to a slice's front.
// Each is total: it takes any bytes and any numbers.
#![tactic(auto)]

ghost use Rattle.std.specs.Prelude.{◌≡◌, ◌==◌, position};
ghost use Rattle.reading.specs.Bytes.{trim_cr};
ghost use Rattle.lines.specs.Lines.{line_from, copied, moved_front};

// The first place of a byte, if it is there.
pub fn find_byte(s: &[u8], byte: u8) -> Option<usize>
    ensures { result ≡ position (λ b. b == byte) s.now }
{
    s.iter().position(|&b| b == byte)
}

// The first LF of `s` at or after `from`; a start past the end finds nothing.
#[tactic(auto, using(crate::proofs::Laws::line_past))]
pub fn find_line(s: &[u8], from: usize) -> Option<usize>
    ensures { result ≡ line_from s.now from }
{
    let i = find_byte(s.get(from..)?, b'\n')?;
    Some(from + i)
}

// `s` without one final carriage return, if it has one: the same place.
#[tactic(auto, using(crate::proofs::Laws::trim_none, crate::proofs::Laws::trim_cr_lem, crate::proofs::Laws::trim_whole))]
pub fn trim_cr(s: &[u8]) -> &[u8]
    ensures bytes { result.now ≡ trim_cr s.now }
    ensures place { result.ref_ptr ≡ s.entry.ref_ptr }
{
    let n = s.len();
    if n == 0 {
        return s;
    }
    let m = n - 1;
    if s[m] == b'\r' { &s[..m] } else { s }
}

// The copy and the move are loops: the library's `copy_from_slice` and `copy_within` call memmove, and the archives for C ask no such name from outside.
// Copies `src` over the front of `dst`, as much of it as `dst` has room for; the rest of `dst` stays.
pub fn copy_into(dst: &mut [u8], src: &[u8])
    ensures { dst.new ≡ copied dst.old src.now }
{
    let n = dst.len().min(src.len());
    for i in 0..n {
        dst[i] = src[i];
    }
}

// Moves the bytes from `start` up to `fill` to the front of `window`; behind them stays what was there.
pub fn move_front(window: &mut [u8], start: usize, fill: usize)
    ensures { window.new ≡ moved_front window.old start fill }
{
    let count = fill.min(window.len()).saturating_sub(start);
    for i in 0..count {
        window[i] = window[start + i];
    }
}
