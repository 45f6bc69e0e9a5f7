// Refusals 1 to 5 of document 01 at their edges, on a window of 32 bytes in fixed memory, with no heap.
use crate::calls::Calls;
use crate::{calls, telling};
use reader::{Byte, Line, Position, Reader};

pub fn run<P: Print>(rt: &P) {
    sizes(rt);
    let Ok(reader) = Reader::open(32) else {
        return;
    };
    another_length(rt, reader);
    forged_window(rt, reader);
    forged_position(rt, reader);
    not_waiting(rt, reader);
    ended(rt, reader);
    ended_and_not_waiting(rt, reader);
    at_limit(rt, reader);
    near_limit(rt, reader);
    far_places(rt, reader);
}

fn sizes(rt: &impl Print) {
    telling::text(rt, "refusal 1: window sizes\n");
    for size in [2, 3, 16777216, 16777217] {
        calls::open(rt, size);
    }
}

fn place(line: u64, byte: u64) -> Position {
    Position {
        line: Line(line),
        byte: Byte(byte),
    }
}

impl<P: Print> Calls<'_, P> {
    // Four bytes held, a line end noted, more wanted.
    fn begun(&mut self, reader: Reader) -> Reader {
        let fed = self.feed(reader, b"@a\nA");
        self.next(fed)
    }

    // A complete record held.
    fn whole(&mut self, reader: Reader) -> Reader {
        self.feed(reader, b"@a\nAC\n+\nII\n")
    }

    // The calls that bring input.
    fn bring_input(&mut self, reader: Reader) {
        self.feed(reader, b"C");
        self.finish(reader);
    }

    fn every_call(&mut self, reader: Reader) {
        self.bring_input(reader);
        self.next(reader);
        self.seek(reader, place(1, 0));
    }
}

fn another_length<P: Print>(rt: &P, reader: Reader) {
    let mut bytes = [b'.'; 32];
    let mut shorter = [b'.'; 31];
    let mut longer = [b'.'; 33];
    telling::text(rt, "refusal 2: a window of 31 bytes, then of 33\n");
    let held = Calls::on(rt, &mut bytes).begun(reader);
    Calls::on(rt, &mut shorter).every_call(held);
    Calls::on(rt, &mut longer).every_call(held);
}

fn forged_window<P: Print>(rt: &P, reader: Reader) {
    let mut bytes = [b'.'; 32];
    let mut calls = Calls::on(rt, &mut bytes);
    telling::text(
        rt,
        "refusal 2: a fill point past the window, a searched mark at the last line end\n",
    );
    let held = calls.begun(reader);
    calls.every_call(Reader { fill: 33, ..held });
    calls.every_call(Reader { mark: 2, ..held });
}

fn forged_position<P: Print>(rt: &P, reader: Reader) {
    let mut bytes = [b'.'; 32];
    let mut calls = Calls::on(rt, &mut bytes);
    telling::text(
        rt,
        "refusal 2: held bytes past 2^48, a line above 2^49; the line 2^49 is not foreign\n",
    );
    let held = calls.begun(reader);
    let byte = Byte(281474976710653);
    calls.every_call(Reader { byte, ..held });
    let above = Line(562949953421313);
    calls.every_call(Reader {
        line: above,
        ..held
    });
    let last = Line(562949953421312);
    calls.next(Reader { line: last, ..held });
}

fn not_waiting<P: Print>(rt: &P, reader: Reader) {
    let mut bytes = [b'.'; 32];
    let mut calls = Calls::on(rt, &mut bytes);
    telling::text(rt, "refusal 3: a record was answered\n");
    let held = calls.whole(reader);
    let answered = calls.next(held);
    calls.bring_input(answered);
}

fn ended<P: Print>(rt: &P, reader: Reader) {
    let mut bytes = [b'.'; 32];
    let mut calls = Calls::on(rt, &mut bytes);
    telling::text(rt, "refusal 4: the end is noted\n");
    let held = calls.begun(reader);
    let noted = calls.finish(held);
    calls.bring_input(noted);
}

fn ended_and_not_waiting<P: Print>(rt: &P, reader: Reader) {
    let mut bytes = [b'.'; 32];
    let mut calls = Calls::on(rt, &mut bytes);
    telling::text(
        rt,
        "refusal 4 before 3: the end is noted and a record was answered\n",
    );
    let held = calls.whole(reader);
    let noted = calls.finish(held);
    let answered = calls.next(noted);
    calls.bring_input(answered);
}

fn at_limit<P: Print>(rt: &P, reader: Reader) {
    let mut bytes = [b'.'; 32];
    let mut calls = Calls::on(rt, &mut bytes);
    telling::text(rt, "refusal 5: a byte past 2^48\n");
    let last = calls.seek(reader, place(1, 281474976710656));
    calls.feed(last, b"C");
    calls.feed(last, b"");
}

fn near_limit<P: Print>(rt: &P, reader: Reader) {
    let mut bytes = [b'.'; 32];
    let mut calls = Calls::on(rt, &mut bytes);
    telling::text(rt, "refusal 5: one of three bytes past 2^48\n");
    let near = calls.seek(reader, place(1, 281474976710654));
    calls.feed(near, b"ACG");
    calls.feed(near, b"AC");
}

fn far_places<P: Print>(rt: &P, reader: Reader) {
    let mut bytes = [b'.'; 32];
    let mut calls = Calls::on(rt, &mut bytes);
    telling::text(rt, "refusal 5: a line or a byte above 2^48\n");
    let last = calls.seek(reader, place(281474976710656, 0));
    let held = calls.begun(last);
    calls.seek(held, place(281474976710657, 0));
    calls.seek(held, place(1, 281474976710657));
}
