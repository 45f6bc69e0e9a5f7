// Text: numbers as decimal digits, lines of values, and numbers out of text.
// Each function takes any output, any place and any bytes; what does not fit is refused, and nothing is written.
#![tactic(auto)]

ghost use Rattle.std.specs.Prelude.{◌≡◌, ◌++◌, ◌∷◌, [], ◌+◌, ◌≤◌, ◌<◌, length, take, drop};
ghost use Rattle.std.proofs.Math.Option.{none};
ghost use Rattle.writer.specs.Answer.{Writes};
ghost use Rattle.text.specs.Decimal.{ZERO, decimal};
ghost use Rattle.text.specs.Line.{TAB, value_bytes, line_bytes};
ghost use Rattle.text.specs.Parse.{number_within};

use writer::Refusal;

// The bytes of six values, each a tab and 20 digits, and LF: memory that is fixed, as there is no heap.
const LONGEST: usize = 127;

// The decimal digits of n at the end of a text; the answer is the place of the first.
// The digits are found from the last to the first, so `i` is a place in the text and no count. The one found last needs no division. By hand: std's formats promise no bytes in a lent slice.
#[tactic(auto, using(crate::proofs::Decimals::digit_last))]
fn digits_at_end(text: &mut [u8], n: u64) -> usize
    requires { 20 ≤ length text.old }
    ensures { (drop result text.new ≡ decimal n) × (result ≤ length text.old) × (length text.old ≤ result + 20) }
{
    let mut i = text.len();
    let mut rest = n;
    while 10 <= rest {
        i -= 1;
        text[i] = b'0' + (rest % 10) as u8;
        rest /= 10;
    }
    i -= 1;
    text[i] = b'0' + rest as u8;
    i
}

// A tab and the digits of n at the end of a text.
#[tactic(auto, using(crate::proofs::Lines::tab_before))]
fn value_at_end(text: &mut [u8], n: u64) -> usize
    requires { 21 ≤ length text.old }
    ensures { (drop result text.new ≡ TAB ∷ decimal n) × (result ≤ length text.old) × (length text.old ≤ result + 21) }
{
    let i = digits_at_end(text, n) - 1;
    text[i] = b'\t';
    i
}

// At the end of a text, a tab and the digits of each value, and LF.
#[tactic(auto, using(crate::proofs::Lines::value_more, crate::proofs::Lines::values_all))]
fn values_at_end(text: &mut [u8; LONGEST], values: &[u64]) -> usize
    requires { length values.now ≤ 6 }
    ensures { (drop result text.new ≡ value_bytes values.now) × (result ≤ LONGEST) }
{
    let mut i = LONGEST - 1;
    text[i] = b'\n';
    for &value in values.iter().rev() {
        i = value_at_end(&mut text[..i], value);
    }
    i
}

// The decimal digits of n, from place `at` on. The digits have fixed memory, no heap.
pub fn put_number(out: &mut [u8], at: usize, n: u64) -> Result<usize, Refusal>
    ensures { Writes none out.old at (decimal n) result out.new }
{
    let mut text = [0u8; 20];
    let from = digits_at_end(&mut text, n);
    writer::write_all(out, at, &[&text[from..]])
}

// A line: the word, a tab and the decimal digits of each value, LF. A line has six values at most.
#[tactic(auto, using(std::proofs::lemmas::List::take_min), unfolding(crate::specs::Line::line_bytes))]
pub fn put_line(out: &mut [u8], at: usize, word: &[u8], values: &[u64]) -> Result<usize, Refusal>
    ensures { Writes none out.old at (line_bytes word.now (take 6 values.now)) result out.new }
{
    let mut text = [0u8; LONGEST];
    let n = values.len().min(6);
    let from = values_at_end(&mut text, &values[..n]);
    writer::write_all(out, at, &[word, &text[from..]])
}

// The number that the text's decimal digits are, if it lies from `low` to `high`.
#[tactic(auto, using(crate::proofs::Numbers::number_none, crate::proofs::Numbers::number_start, crate::proofs::Numbers::no_digit, crate::proofs::Numbers::past_high, crate::proofs::Numbers::digit_read, crate::proofs::Numbers::below_low, crate::proofs::Numbers::above_high, crate::proofs::Numbers::within))]
pub fn number_within(text: &[u8], low: u64, high: u64) -> Option<u64>
    ensures { result ≡ number_within text.now low high }
{
    if text.is_empty() {
        return None;
    }
    let mut value = 0u64;
    for &b in text {
        if !b.is_ascii_digit() {
            return None;
        }
        value = value.checked_mul(10)?.checked_add(u64::from(b - b'0'))?;
    }
    if value < low || high < value {
        return None;
    }
    Some(value)
}
