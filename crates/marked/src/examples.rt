// The marked examples of document 01, and one whose offsets in the input are not its places in the window.
use crate::driver;

pub fn run(rt: &impl Print) {
    tails(rt);
    lines(rt);
    windows(rt);
    moved(rt);
}

// Nothing, a record, and what may follow it.
fn tails(rt: &impl Print) {
    driver::example(rt, "M1", 64, b"");
    driver::example(rt, "M2", 64, b"@a\nAC\n+\nII\n");
    driver::example(rt, "M3", 64, b"@a\nAC\n+\nII");
    driver::example(rt, "M4", 64, b"@a\nAC\n+\nII\n\n\n");
    driver::example(rt, "M5", 64, b"@a\nAC\n+\nII\n\n\n\n");
}

// A record's lines.
fn lines(rt: &impl Print) {
    driver::example(rt, "M6", 64, b"@a\r\nAC\r\n+\r\nII");
    driver::example(rt, "M7", 64, b"@a\nAC\r\n+\nIII\n");
    driver::example(rt, "M8", 64, b"@a\nAC\n-\nII\n");
    driver::example(rt, "M9", 64, b"xa\nAC\n");
    driver::example(rt, "M10", 64, b"@\n\n+\n");
    driver::example(rt, "M11", 64, b"\n\nx");
}

// The least window that serves, and one byte less.
fn windows(rt: &impl Print) {
    driver::example(rt, "M12", 11, b"@a\nAC\n+\nII\n");
    driver::example(rt, "M12", 10, b"@a\nAC\n+\nII\n");
    driver::example(rt, "M13", 11, b"@a\nAC\n+\nII");
    driver::example(rt, "M13", 10, b"@a\nAC\n+\nII");
    driver::example(rt, "M14", 5, b"\r\n\r\n");
    driver::example(rt, "M14", 4, b"\r\n\r\n");
}

// M2 and M8 in a window that does not hold both, so that kept bytes move to its front.
fn moved(rt: &impl Print) {
    driver::example(rt, "M2 M8", 12, b"@a\nAC\n+\nII\n@a\nAC\n-\nII\n");
}
