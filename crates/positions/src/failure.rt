// Reads and writes that failed, told on standard error.
use std::io;
use std::io::Write;

// More than an error's text takes.
const ROOM: usize = 128;

// A line that says what failed, and why in the system's words. Its text has fixed memory, no heap.
pub fn tell(rt: &impl Eprint, what: &str, error: io::Error) {
    let mut bytes = [0u8; ROOM];
    let mut room = &mut bytes[..];
    let _ = write!(room, "{error}");
    let n = ROOM.saturating_sub(room.len());
    let why = words(&bytes[..n]);
    let _ = eprintln!(rt; "{what}: {why}");
}

// An error's text without its number: of "Is a directory (os error 21)" the first three words.
fn words(text: &[u8]) -> &str {
    let Ok(all) = str::from_utf8(text) else {
        return "";
    };
    match all.split_once(" (os error ") {
        Some((words, _)) => words,
        None => all,
    }
}
