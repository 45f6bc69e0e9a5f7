// The views of a record: where a part of it stands in the window, and how long it is.
ghost use Rattle.std.specs.Prelude.{◌≡◌, length};
ghost use Rattle.reading.specs.Answer.{five};
ghost use Rattle.record.specs.Check.{five_of};
ghost use Rattle.c_interface.specs.Told.{briefly};
ghost use Rattle.c_interface.specs.Shown.{Shown, view_told, view_call};

use crate::{ABSENT, DONE, FOREIGN, Told, VALUES};
use record::Record;

// All that a view tells. The six values are made of it in one place: made in each arm they go through memory, which took a third more time.
#[derive(Clone, Copy)]
struct View {
    code: usize,
    from: usize,
    length: usize,
}

// A part of the window, by its place.
fn part(from: usize, bytes: &[u8]) -> View
    ensures { briefly result.code result.from result.length ≡ briefly 0 from (length bytes.now) }
{
    View {
        code: DONE,
        from,
        length: bytes.len(),
    }
}

// A view that there is none of.
fn absent() -> View
    ensures { briefly result.code result.from result.length ≡ briefly 18 0 0 }
{
    View {
        code: ABSENT,
        from: 0,
        length: 0,
    }
}

// The view by its number, as c_interface.h has them: 0 head, 1 seq, 2 qual, 3 id, 4 description; any other is absent.
fn view_told(which: usize, window: &[u8], r: Record) -> View
    ensures { briefly result.code result.from result.length ≡ view_told which window.now (five_of r) }
{
    let absent = absent();
    // No record: each view is the empty part at offset 0, and there is no description.
    if !r.fits(window.len()) {
        return if which < 4 { part(0, &[]) } else { absent };
    }
    match which {
        0 => part(r.start + 1, r.head(window)),
        1 => part(r.seq, r.seq(window)),
        2 => part(r.qual, r.qual(window)),
        3 => part(r.start + 1, r.id_bytes(window)),
        4 => match r.desc(window) {
            Some(desc) => part(r.start + 1 + (r.head(window).len() - desc.len()), desc),
            None => absent,
        },
        _ => absent,
    }
}

// The offset and the length of a view, of a record by its five numbers: C hands them one by one, and the view by a number.
pub fn fq_view(
    values: &mut [usize],
    window: &[u8],
    which: usize,
    start: usize,
    seq: usize,
    sep: usize,
    qual: usize,
    end: usize,
) -> usize
    ensures { Shown result values.new (view_call values.old (view_told which window.now (five start seq sep qual end))) }
{
    if values.len() < VALUES {
        return FOREIGN;
    }
    let r = Record {
        start,
        seq,
        sep,
        qual,
        end,
    };
    let view = view_told(which, window, r);
    Told::new(view.code, [view.from, view.length, 0, 0, 0, 0]).put(values)
}
