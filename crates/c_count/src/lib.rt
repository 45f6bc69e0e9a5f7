// The count of a whole input's records as one number, in the form that C and Rust are handed: c_count_c exports it.
#![tactic(auto)]

ghost use Rattle.std.specs.Prelude.{◌≡◌, length};
ghost use Rattle.protocol.specs.Outcome.{outcome};
ghost use Rattle.c_count.specs.Numbers.{number_in, WindowIs};

// How many records the input has; where the count is refused, the largest number less the refusal's number.
pub fn fq_count(input: &[u8], window: &mut [u8], chunk: usize) -> u64
    ensures answer { result ≡ number_in (outcome input.now (length window.old) chunk) }
    ensures bytes { WindowIs input.now window.old chunk window.new (outcome input.now (length window.old) chunk) }
{
    match protocol::count(input, window, chunk) {
        Ok(tally) => tally.records,
        Err(refusal) => u64::MAX - u64::from(u8::from(refusal)),
    }
}
