// A record in a window: the search for its line ends, which goes on where it stopped, its validation, and its views.
// Each function takes any bytes and any numbers.
#![tactic(auto)]

ghost use Rattle.std.specs.Prelude.{◌≡◌, ◌+◌, ◌≤◌, length, is_some, IfSome};
ghost use Rattle.std.proofs.Math.Seq.{slice};
ghost use Rattle.reading.specs.Bytes.{byte_at, trim_cr, id_length};
ghost use Rattle.reading.specs.Reading.{validate, lengths_agree, error_id};
ghost use Rattle.record.specs.Noted.{listed, with_end, sought_of};
ghost use Rattle.record.specs.Check.{five_of, span_of, check_of};
ghost use Rattle.record.specs.Views.{view_test, Shows, head_view, seq_view, qual_view, id_view, desc_view, has_desc};

// The line ends noted so far, of the record that is sought or was answered: one variant for each count.
#[derive(Clone, Copy, Debug, PartialEq, Eq)]
pub enum Noted {
    Zero,
    One(usize),
    Two(usize, usize),
    Three(usize, usize, usize),
    Four(usize, usize, usize, usize),
}

// The notes after a search, and the place up to which bytes are searched.
#[derive(Clone, Copy, Debug, PartialEq, Eq)]
pub struct Sought {
    pub noted: Noted,
    pub mark: usize,
}

// A range of bytes of the window.
#[derive(Clone, Copy, Debug, PartialEq, Eq)]
pub struct Span {
    pub from: usize,
    pub to: usize,
}

// What validation finds wrong: the values of errors 8, 9 and 10 but for the line.
#[derive(Clone, Copy, Debug, PartialEq, Eq)]
pub enum Invalid {
    Start(u8),
    Separator(u8, Option<Span>),
    Lengths(usize, usize, Option<Span>),
}

// The five numbers of a record: its start, the places after its first, second and third LF, and its end.
#[derive(Clone, Copy, Debug, PartialEq, Eq)]
pub struct Record {
    pub start: usize,
    pub seq: usize,
    pub sep: usize,
    pub qual: usize,
    pub end: usize,
}

impl Noted {
    // How many line ends are noted.
    pub fn count(self) -> usize
        ensures { result ≡ length (listed self) }
    {
        match self {
            Noted::Zero => 0,
            Noted::One(_) => 1,
            Noted::Two(_, _) => 2,
            Noted::Three(_, _, _) => 3,
            Noted::Four(_, _, _, _) => 4,
        }
    }

    // The notes with one line end more; there is no fifth.
    pub fn with(self, end: usize) -> Noted
        ensures { result ≡ with_end self end }
    {
        match self {
            Noted::Zero => Noted::One(end),
            Noted::One(a) => Noted::Two(a, end),
            Noted::Two(a, b) => Noted::Three(a, b, end),
            Noted::Three(a, b, c) => Noted::Four(a, b, c, end),
            Noted::Four(_, _, _, _) => self,
        }
    }
}

// Searches on for the line ends that are missing of four, from `mark` to the end of the held bytes.
#[tactic(auto, using(crate::proofs::Laws::search_inside, crate::proofs::Laws::search_on, crate::proofs::Laws::search_past, crate::proofs::Laws::search_full, crate::proofs::Laws::with_more))]
pub fn search(held: &[u8], noted: Noted, mark: usize) -> Sought
    ensures { result ≡ sought_of held.now noted mark }
{
    let mut noted = noted;
    let mut mark = mark;
    while noted.count() < 4 {
        let Some(end) = lines::find_line(held, mark) else {
            let mark = held.len();
            return Sought { noted, mark };
        };
        noted = noted.with(end);
        mark = end + 1;
    }
    Sought { noted, mark }
}

// The byte at a place, or 0 past the end.
fn byte_at(s: &[u8], i: usize) -> u8
    ensures { result ≡ byte_at s.now i }
{
    if i < s.len() { s[i] } else { 0 }
}

// The bytes from `from` up to `to`, as far as there are any, after `trim_cr`.
fn line(s: &[u8], from: usize, to: usize) -> &[u8]
    ensures bytes { result.now ≡ trim_cr (slice from to s.now) }
    ensures place { from ≤ to → to ≤ length s.now → result.ref_ptr ≡ (s.entry.ref_ptr.0, from + s.entry.ref_ptr.1) }
{
    let e = to.min(s.len());
    if e < from {
        return &s[..0];
    }
    lines::trim_cr(&s[from..e])
}

// How many bytes of a head are its id.
pub fn id_length(head: &[u8]) -> usize
    ensures { result ≡ id_length head.now }
{
    match lines::find_byte(head, b' ') {
        Some(i) => i,
        None => head.len(),
    }
}

// The id of an error: present if the first line is longer than its LF.
pub fn error_id(window: &[u8], start: usize, seq: usize) -> Option<Span>
    ensures { result ≡ span_of (error_id window.now start seq) }
{
    if seq.saturating_sub(start) <= 1 {
        return None;
    }
    let from = start + 1;
    let head = line(window, from, seq - 1);
    let to = from + id_length(head);
    Some(Span { from, to })
}

impl Record {
    // The raw lengths agree, each counted with its line end.
    #[tactic(auto, unfolding(reading::specs::Reading::lengths_agree))]
    fn lengths_agree(self, window: &[u8]) -> bool
        ensures { result ≡ lengths_agree window.now (five_of self) }
    {
        let m = self.sep.saturating_sub(self.seq);
        let n = self.end.saturating_sub(self.qual);
        0 < m && m - 1 == n
    }

    // The test of a record, in document 01's order.
    #[tactic(auto, using(crate::proofs::Laws::check_start, crate::proofs::Laws::check_plus, crate::proofs::Laws::check_good, crate::proofs::Laws::check_lengths))]
    pub fn validate(self, window: &[u8]) -> Result<(), Invalid>
        ensures { result ≡ check_of (validate window.now (five_of self)) }
    {
        let start = self.start;
        let seq = self.seq;
        let sep = self.sep;
        let first = byte_at(window, start);
        if first != b'@' {
            return Err(Invalid::Start(first));
        }
        let plus = byte_at(window, sep);
        if plus != b'+' {
            return Err(Invalid::Separator(plus, error_id(window, start, seq)));
        }
        if self.lengths_agree(window) {
            return Ok(());
        }
        let s = line(window, seq, sep.saturating_sub(1));
        let q = line(window, self.qual, self.end);
        Err(Invalid::Lengths(s.len(), q.len(), error_id(window, start, seq)))
    }

    // The view test: the five numbers are those of a record within n bytes.
    #[tactic(auto, unfolding(crate::specs::Views::view_test))]
    pub fn fits(self, n: usize) -> bool
        ensures { result ≡ view_test (five_of self) n }
    {
        2 <= self.seq.saturating_sub(self.start)
            && self.seq < self.sep
            && 2 <= self.qual.saturating_sub(self.sep)
            && self.qual <= self.end
            && self.end <= n
    }

    // The three lines have a body each: the ends of a line are computed behind the test that bounds them.
    // The head line without `@`.
    pub fn head<'a>(self, window: &'a [u8]) -> &'a [u8]
        ensures { Shows window.entry (head_view window.now (five_of self)) result }
    {
        if !self.fits(window.len()) {
            return &window[..0];
        }
        line(window, self.start + 1, self.seq - 1)
    }

    // The sequence line.
    pub fn seq<'a>(self, window: &'a [u8]) -> &'a [u8]
        ensures { Shows window.entry (seq_view window.now (five_of self)) result }
    {
        if !self.fits(window.len()) {
            return &window[..0];
        }
        line(window, self.seq, self.sep - 1)
    }

    // The quality line.
    pub fn qual<'a>(self, window: &'a [u8]) -> &'a [u8]
        ensures { Shows window.entry (qual_view window.now (five_of self)) result }
    {
        if !self.fits(window.len()) {
            return &window[..0];
        }
        line(window, self.qual, self.end)
    }

    // The head up to its first space.
    pub fn id_bytes<'a>(self, window: &'a [u8]) -> &'a [u8]
        ensures { Shows window.entry (id_view window.now (five_of self)) result }
    {
        let h = self.head(window);
        let n = id_length(h);
        &h[..n]
    }

    // What follows the first space of the head, though it may be empty; without a space there is no description.
    pub fn desc<'a>(self, window: &'a [u8]) -> Option<&'a [u8]>
        ensures given { is_some result ≡ has_desc window.now (five_of self) }
        ensures shown { IfSome result (Shows window.entry (desc_view window.now (five_of self))) }
    {
        let h = self.head(window);
        let n = id_length(h);
        if n < h.len() {
            let m = n + 1;
            Some(&h[m..])
        } else {
            None
        }
    }

    // The head has a description, though it may be empty.
    pub fn has_desc(self, window: &[u8]) -> bool
        ensures { result ≡ has_desc window.now (five_of self) }
    {
        self.desc(window).is_some()
    }

    // What follows the first space of the head; where there is no description, the empty part at the window's front.
    pub fn desc_bytes<'a>(self, window: &'a [u8]) -> &'a [u8]
        ensures { Shows window.entry (desc_view window.now (five_of self)) result }
    {
        self.desc(window).unwrap_or(&window[..0])
    }
}
