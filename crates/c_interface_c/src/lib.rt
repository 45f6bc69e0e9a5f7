// The exports of the library for C and Rust: each calls the function of its name in c_interface, with the same promise.
// crates/c_interface/c_interface.h declares them. They stand beside those functions for C: a static library has its exports alone, and an export is not generic.
#![tactic(auto)]

ghost use Rattle.std.specs.Prelude.{◌≡◌, ◌/◌, length};
ghost use Rattle.c_interface.specs.Calls.{Leaves, Begins, open_call, next_call, feed_call, feed_window, finish_call, seek_call, set_call, set_table, position_call};
ghost use Rattle.reading.specs.Answer.{five};
ghost use Rattle.c_interface.specs.Shown.{Shown, view_told, view_call};
ghost use Rattle.writer.specs.Bytes.{given_desc};
ghost use Rattle.c_interface.specs.Writes.{Puts, write_to, write_parts, write_unchanged};

// A fresh state for windows of this length.
#[unsafe(no_mangle)]
pub extern "C" fn fq_open(state: &mut [usize], window: usize) -> usize
    ensures { Begins result state.new (open_call state.old window) }
{
    c_interface::fq_open(state, window)
}

// Takes from the chunk; the value is how many bytes.
#[unsafe(no_mangle)]
pub extern "C" fn fq_feed(
    state: &mut [usize],
    values: &mut [usize],
    window: &mut [u8],
    chunk: &[u8],
) -> usize
    ensures answer { Leaves result state.new values.new (feed_call state.old values.old (length window.old) (length chunk.now)) }
    ensures bytes { window.new ≡ feed_window state.old values.old window.old chunk.now }
{
    c_interface::fq_feed(state, values, window, chunk)
}

// Notes the end of the input.
#[unsafe(no_mangle)]
pub extern "C" fn fq_finish(state: &mut [usize], values: &mut [usize], window: &[u8]) -> usize
    ensures { Leaves result state.new values.new (finish_call state.old values.old (length window.now)) }
{
    c_interface::fq_finish(state, values, window)
}

// The next answer.
#[unsafe(no_mangle)]
pub extern "C" fn fq_next(state: &mut [usize], values: &mut [usize], window: &[u8]) -> usize
    ensures { Leaves result state.new values.new (next_call state.old values.old window.now) }
{
    c_interface::fq_next(state, values, window)
}

// To another line and byte; with FEED_FROM the value is the byte to feed from.
#[unsafe(no_mangle)]
pub extern "C" fn fq_seek(
    state: &mut [usize],
    values: &mut [usize],
    window: &[u8],
    line: u64,
    byte: u64,
) -> usize
    ensures { Leaves result state.new values.new (seek_call state.old values.old (length window.now) line byte) }
{
    c_interface::fq_seek(state, values, window, line, byte)
}

// The position: its line and its byte.
#[unsafe(no_mangle)]
pub extern "C" fn fq_position(state: &[usize], values: &mut [usize]) -> usize
    ensures { Leaves result state.now values.new (position_call state.now values.old) }
{
    c_interface::fq_position(state, values)
}

// Lists as many records as there are and the table has whole entries for; the value is how many.
#[unsafe(no_mangle)]
pub extern "C" fn fq_read_record_set(
    state: &mut [usize],
    values: &mut [usize],
    window: &[u8],
    table: &mut [usize],
) -> usize
    ensures answer { Leaves result state.new values.new (set_call state.old values.old window.now (length table.old / 5) (length table.old / 5)) }
    ensures numbers { table.new ≡ set_table state.old values.old window.now (length table.old / 5) table.old }
{
    c_interface::fq_read_record_set(state, values, window, table)
}

// Lists at most so many records.
#[unsafe(no_mangle)]
pub extern "C" fn fq_read_record_set_exact(
    state: &mut [usize],
    values: &mut [usize],
    window: &[u8],
    table: &mut [usize],
    wanted: usize,
) -> usize
    ensures answer { Leaves result state.new values.new (set_call state.old values.old window.now (length table.old / 5) wanted) }
    ensures numbers { table.new ≡ set_table state.old values.old window.now wanted table.old }
{
    c_interface::fq_read_record_set_exact(state, values, window, table, wanted)
}

// The offset and the length of a view, of a record by its five numbers: C hands them one by one, and the view by a number.
#[unsafe(no_mangle)]
pub extern "C" fn fq_view(
    values: &mut [usize],
    window: &[u8],
    which: usize,
    start: usize,
    seq: usize,
    sep: usize,
    qual: usize,
    end: usize,
) -> usize
    ensures { Shown result values.new (view_call values.old (view_told which window.now (five start seq sep qual end))) }
{
    c_interface::views::fq_view(values, window, which, start, seq, sep, qual, end)
}

// A record's four lines.
#[unsafe(no_mangle)]
pub extern "C" fn fq_write_to(
    values: &mut [usize],
    out: &mut [u8],
    at: usize,
    head: &[u8],
    seq: &[u8],
    qual: &[u8],
) -> usize
    ensures { Puts result values.new out.new (write_to values.old out.old at head.now seq.now qual.now) }
{
    c_interface::writes::fq_write_to(values, out, at, head, seq, qual)
}

// The same with a head of an id, and of a space and a description where one is given: C hands bytes and whether they are given.
#[unsafe(no_mangle)]
pub extern "C" fn fq_write_parts(
    values: &mut [usize],
    out: &mut [u8],
    at: usize,
    id: &[u8],
    desc: &[u8],
    given: bool,
    seq: &[u8],
    qual: &[u8],
) -> usize
    ensures { Puts result values.new out.new (write_parts values.old out.old at id.now (given_desc given desc.now) seq.now qual.now) }
{
    c_interface::writes::fq_write_parts(values, out, at, id, desc, given, seq, qual)
}

// The window's bytes from a record's start to its end, and LF. C hands the five numbers one by one.
#[unsafe(no_mangle)]
pub extern "C" fn fq_write_unchanged(
    values: &mut [usize],
    out: &mut [u8],
    at: usize,
    window: &[u8],
    start: usize,
    seq: usize,
    sep: usize,
    qual: usize,
    end: usize,
) -> usize
    ensures { Puts result values.new out.new (write_unchanged values.old out.old at window.now (five start seq sep qual end)) }
{
    c_interface::writes::fq_write_unchanged(values, out, at, window, start, seq, sep, qual, end)
}
