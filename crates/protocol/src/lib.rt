// The protocol of a user who reads a whole input: ask, and answer each request by the input's next bytes or, when all are taken, by its end.
// Takes any input, window and chunk size.
#![tactic(auto)]

ghost use Rattle.std.specs.Prelude.{◌≡◌, ◌≤◌, ◌<◌, length};
ghost use Rattle.reading.specs.Reading.{reading};
ghost use Rattle.reader.specs.State.{most_bytes, fresh_of};
ghost use Rattle.protocol.specs.Tallies.{tally_of};
ghost use Rattle.protocol.specs.Turns.{kind_of, supplied_of, supplied_window, window_after};
ghost use Rattle.protocol.specs.Outcome.{tallied_of, outcome_of, outcome, Leaves};

use reader::{Answer, Reader, Refusal};

// How many records there are, the answer that closes the reading, and the state after it, which tells the position.
#[derive(Clone, Copy, Debug, PartialEq, Eq)]
pub struct Tally {
    pub records: u64,
    pub closing: Result<Answer, Refusal>,
    pub state: Reader,
}

// The state after a request was answered, and how much of the input is then taken: `supplied_of` counts it so.
#[derive(Clone, Copy)]
struct Supplied {
    state: Reader,
    at: usize,
}

// What an answer means to the protocol.
#[derive(Clone, Copy)]
enum Kind {
    Record,
    Request,
    Closing,
}

fn kind_of(answer: Result<Answer, Refusal>) -> Kind
    ensures { result ≡ kind_of answer }
{
    match answer {
        Ok(Answer::Record(_, _)) => Kind::Record,
        Ok(Answer::More) => Kind::Request,
        Ok(Answer::WindowLimit(_, _))
        | Ok(Answer::InvalidStart(_, _))
        | Ok(Answer::InvalidSeparator(_, _, _))
        | Ok(Answer::UnequalLengths(_, _, _, _))
        | Ok(Answer::UnexpectedEnd(_, _))
        | Ok(Answer::End)
        | Err(_) => Kind::Closing,
    }
}

// Answers a request: offers the input's next bytes, a chunk at most, or notes its end where all of it is taken.
fn supply(state: Reader, window: &mut [u8], input: &[u8], at: usize, chunk: usize) -> Supplied
    requires { at ≤ length input.now }
    ensures answer { result ≡ supplied_of state window.old input.now at chunk }
    ensures bytes { window.new ≡ supplied_window state window.old input.now at chunk }
{
    if input.len() <= at {
        let f = state.finish(window);
        return Supplied { state: f.state, at };
    }
    let end = at + chunk.min(input.len() - at);
    let f = state.feed(window, &input[at..end]);
    Supplied {
        state: f.state,
        at: at + f.answer.unwrap_or(0),
    }
}

// Runs the protocol from a fresh state to the answer that closes the reading.
fn run(fresh: Reader, input: &[u8], window: &mut [u8], chunk: usize) -> Tally
    requires { (fresh ≡ fresh_of (length window.old)) × (0 < chunk) × (length input.now ≤ most_bytes) }
    ensures tally { tallied_of result ≡ tally_of (reading input.now (length window.old) 0 1) }
    ensures bytes { (window.new ≡ window_after input.now window.old chunk) × (length window.new ≡ length window.old) }
{
    let mut state = fresh;
    let mut at: usize = 0;
    let mut records: u64 = 0;
    loop {
        let n = state.next(window);
        match kind_of(n.answer) {
            Kind::Record => {
                state = n.state;
                records += 1;
            }
            Kind::Request => {
                let s = supply(n.state, window, input, at, chunk);
                state = s.state;
                at = s.at;
            }
            Kind::Closing => {
                return Tally {
                    records,
                    closing: n.answer,
                    state: n.state,
                };
            }
        }
    }
}

// Counts the records of a whole input, which is handed to a reader in chunks of this size, through a lent window.
// Refused: 1, a window that open refuses; 6, a chunk size of 0; 5, an input of more than 2^48 bytes; the window then stays as it was.
pub fn count(input: &[u8], window: &mut [u8], chunk: usize) -> Result<Tally, Refusal>
    ensures answer { outcome_of result ≡ outcome input.now (length window.old) chunk }
    ensures bytes { Leaves input.now window.old chunk window.new result }
{
    let fresh = Reader::open(window.len())?;
    if chunk == 0 {
        return Err(Refusal::NothingToDo);
    }
    if Reader::LIMIT < (input.len() as u64) {
        return Err(Refusal::PastLimit);
    }
    Ok(run(fresh, input, window, chunk))
}
