// Sets of records: a lent table gets the five numbers of each record that next would give, up to a wanted count.
// Each call takes any state, window, table and count, and does its own checking.
#![tactic(auto)]

ghost use Rattle.std.specs.Prelude.{◌≡◌, ◌+◌, ◌<◌, ◌≤◌, ◌/◌, length};
ghost use Rattle.std.proofs.lemmas.List.Edits.{sets};
ghost use Rattle.sets.specs.Sets.{row_in, other_of, next_start, after_of, numbers_of, set_of, table_of, entries_of};
ghost use Rattle.sets.specs.Inside.{over_of, look_of, step_of, begin_of, stopped_of, Sound};

use reader::{Answer, Byte, Line, Outcome, Reader, Refusal};
use record::{Noted, Record};

// What a set call answers: how many records it listed; with none, next's answer.
#[derive(Clone, Copy, Debug, PartialEq, Eq)]
pub enum Reply {
    Count(usize),
    Other(Answer),
}

// A set call on its way: so many records are listed of those wanted.
#[derive(Clone, Copy)]
pub struct Run {
    pub count: usize,
    pub wanted: usize,
    pub entry: Option<Record>, // the record to list next, if there is one
    pub state: Reader, // the state after it
    pub out: Outcome<Reply>, // the answer, where there is no more to list
}

// The record that an answer of next gives, if it gives one.
fn given(answer: Result<Answer, Refusal>) -> Option<Record>
    ensures { result ≡ row_in answer }
{
    match answer {
        Ok(Answer::Record(r, _)) => Some(r),
        Ok(Answer::More)
        | Ok(Answer::WindowLimit(_, _))
        | Ok(Answer::InvalidStart(_, _))
        | Ok(Answer::InvalidSeparator(_, _, _))
        | Ok(Answer::UnequalLengths(_, _, _, _))
        | Ok(Answer::UnexpectedEnd(_, _))
        | Ok(Answer::End)
        | Err(_) => None,
    }
}

// What next answers, as a set call hands it on.
fn other(answer: Result<Answer, Refusal>) -> Result<Reply, Refusal>
    ensures { result ≡ other_of answer }
{
    answer.map(|a| Reply::Other(a))
}

// Where the record behind an answered one starts; behind one with no final LF, the end of the held bytes.
fn next_start(noted: Noted, fill: usize) -> usize
    requires { next_start fill noted ≤ fill }
    ensures { result ≡ next_start fill noted }
{
    match noted {
        Noted::Four(_, _, _, d) => d + 1,
        Noted::Zero => fill,
        Noted::One(_) => fill,
        Noted::Two(_, _) => fill,
        Noted::Three(_, _, _) => fill,
    }
}

// The state behind the record that it answered last: nothing of the following one counts as searched.
// `Sound` as a clause: a type for it is no plainer, since it holds of a state that has answered a record, and `look` takes one that may not have.
fn after(state: Reader) -> Reader
    requires { Sound state }
    ensures { result ≡ after_of state }
{
    let noted = state.noted;
    let line = state.line;
    let byte = state.byte;
    let at = next_start(noted, state.fill);
    Reader {
        start: at,
        noted: Noted::Zero,
        mark: at,
        line: Line(line.0 + 4),
        byte: Byte(byte.0 + ((at - state.start) as u64)),
        waiting: false,
        ..state
    }
}

impl Run {
    // There is no more to list.
    fn over(count: usize, state: Reader, out: Outcome<Reply>) -> Run
        ensures { result ≡ over_of count state out }
    {
        Run {
            count,
            wanted: count,
            entry: None,
            state,
            out,
        }
    }

    // The set ends behind the records listed so far.
    fn stopped(count: usize, state: Reader) -> Run
        requires { Sound state }
        ensures { result ≡ stopped_of count state }
    {
        let s = after(state);
        Run::over(
            count,
            state,
            Outcome {
                state: s,
                answer: Ok(Reply::Count(count)),
            },
        )
    }

    // What next answers, where so many records are listed.
    fn look(state: Reader, window: &[u8], count: usize, wanted: usize) -> Run
        requires { 0 < count → Sound state }
        ensures { result ≡ look_of state window.now count wanted }
    {
        let x = state.next(window);
        let then = x.state;
        let out = Outcome {
            state: then,
            answer: other(x.answer),
        };
        match given(x.answer) {
            Some(r) => Run {
                count,
                wanted,
                entry: Some(r),
                state: then,
                out,
            },
            None => {
                if count == 0 {
                    return Run::over(0, state, out);
                }
                Run::stopped(count, state)
            }
        }
    }

    // The entry is stored: on to the next record, if one is wanted.
    fn step(self, window: &[u8]) -> Run
        requires { (self.count < self.wanted) × Sound self.state }
        ensures { result ≡ step_of self window.now }
    {
        let state = self.state;
        let count = self.count + 1;
        if count < self.wanted {
            return Run::look(state, window, count, self.wanted);
        }
        Run::stopped(count, state)
    }

    // A set call begins, for a table with room for so many entries: the refusals, and the first record.
    fn begin(state: Reader, window: &[u8], room: usize, wanted: usize) -> Run
        ensures { result ≡ begin_of state window.now room wanted }
    {
        if !state.owns(window.len()) {
            return Run::over(
                0,
                state,
                Outcome {
                    state,
                    answer: Err(Refusal::Foreign),
                },
            );
        }
        let n = wanted.min(room);
        if n == 0 {
            return Run::over(
                0,
                state,
                Outcome {
                    state,
                    answer: Err(Refusal::NothingToDo),
                },
            );
        }
        Run::look(state, window, 0, n)
    }
}

// The five numbers of an entry are stored from `at` on: five stores are no longer than an array of five and its copy.
fn put(table: &mut [usize], at: usize, entry: Record)
    requires { at + 5 ≤ length table.old }
    ensures { table.new ≡ sets table.old at (numbers_of entry) }
{
    table[at] = entry.start;
    table[at + 1] = entry.seq;
    table[at + 2] = entry.sep;
    table[at + 3] = entry.qual;
    table[at + 4] = entry.end;
}

// Lists at most `wanted` records, as many as there are and the table has whole entries for.
pub fn read_record_set_exact(
    state: Reader,
    window: &[u8],
    table: &mut [usize],
    wanted: usize,
) -> Outcome<Reply>
    ensures answer { result ≡ set_of state window.now (length table.old / 5) wanted }
    ensures numbers { table.new ≡ table_of state window.now wanted table.old }
{
    let mut run = Run::begin(state, window, table.len() / 5, wanted);
    while let Some(entry) = run.entry {
        put(table, run.count * 5, entry);
        run = run.step(window);
    }
    run.out
}

// Lists as many records as there are and the table has whole entries for.
pub fn read_record_set(state: Reader, window: &[u8], table: &mut [usize]) -> Outcome<Reply>
    ensures answer { result ≡ set_of state window.now (length table.old / 5) (length table.old / 5) }
    ensures numbers { table.new ≡ table_of state window.now (length table.old / 5) table.old }
{
    let n = table.len() / 5;
    read_record_set_exact(state, window, table, n)
}

// One entry of a table of records: the five numbers of a record, with its views.
pub type Entry = Record;

// The same on a table of entries, which are stored one by one.
// The loop stands twice: a trait for both tables, with laws of its room and its stores for each, is no plainer than five lines.
pub fn read_entries_exact(
    state: Reader,
    window: &[u8],
    table: &mut [Entry],
    wanted: usize,
) -> Outcome<Reply>
    ensures { (result ≡ set_of state window.now (length table.old) wanted) × (table.new ≡ entries_of state window.now wanted table.old) }
{
    let mut run = Run::begin(state, window, table.len(), wanted);
    while let Some(entry) = run.entry {
        table[run.count] = entry;
        run = run.step(window);
    }
    run.out
}
