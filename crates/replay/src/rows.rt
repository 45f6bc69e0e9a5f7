// Rows of the list, as text: a letter, the window's length, the chunks' length, two numbers, and the input in hexadecimal digits.
// One byte stands between any two of these.
use reader::{Byte, Line, Position};
use std::slice::Iter;

// What stands in a row before its input.
#[derive(Clone, Copy)]
pub struct Row {
    pub kind: Kind,
    pub window: usize,
    pub chunk: usize,
}

// How the input is read: the letter, and what the two numbers say with it.
#[derive(Clone, Copy)]
pub enum Kind {
    Written, // n: by next, and each record is written again
    Sought(Position), // k: by next; once the reading is closed, by next from a line and a byte on
    InSets(usize), // s: by sets of at most so many records
    Answered, // any other letter: by next
}

// The most that a number is before its last digit.
const MOST: usize = 100000000000000;

// The number that the next digits are; the byte behind them is taken too. A digit too many ends the number, where `parse` would refuse it.
fn numeral(text: &mut Iter<'_, u8>) -> usize {
    let mut value = 0;
    for b in text.by_ref() {
        if !b.is_ascii_digit() || MOST < value {
            return value;
        }
        value = value * 10 + (*b - b'0') as usize;
    }
    value
}

// The next row up to its input, or nothing at the text's end.
pub fn parsed(text: &mut Iter<'_, u8>) -> Option<Row> {
    let letter = *text.next()?;
    text.next();
    let window = numeral(text);
    let chunk = numeral(text);
    let a = numeral(text);
    let b = numeral(text);
    let kind = match letter {
        b'n' => Kind::Written,
        b'k' => Kind::Sought(Position {
            line: Line(a as u64),
            byte: Byte(b as u64),
        }),
        b's' => Kind::InSets(a),
        _ => Kind::Answered,
    };
    Some(Row {
        kind,
        window,
        chunk,
    })
}

// A hexadecimal digit's value. Capitals are no digits here, so that `to_digit` does not serve.
fn digit(b: &u8) -> Option<u8> {
    match *b {
        b @ b'0'..=b'9' => Some(b - b'0'),
        b @ b'a'..=b'f' => Some(b - b'a' + 10),
        _ => None,
    }
}

// The byte of the next pair of digits. Of the bytes that are no pair the first one is taken, if it is a digit or not.
fn pair(text: &mut Iter<'_, u8>) -> Option<u8> {
    let high = digit(text.next()?)?;
    let low = digit(text.as_slice().first()?)?;
    text.next();
    Some(high << 4 | low)
}

// The bytes of the next pairs of digits, as many as there is room for.
pub fn unhex<'a>(text: &mut Iter<'_, u8>, room: &'a mut [u8]) -> &'a [u8] {
    for (n, place) in room.iter_mut().enumerate() {
        let Some(byte) = pair(text) else {
            return &room[..n];
        };
        *place = byte;
    }
    room
}
