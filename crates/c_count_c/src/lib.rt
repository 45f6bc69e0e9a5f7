// The export of the count, for C and Rust: what the benchmark calls. For C it stands beside the function: a static library has its exports alone.
// In C: uint64_t fq_count(const uint8_t *input, size_t input_length, uint8_t *window, size_t window_length, size_t chunk);
#![tactic(auto)]

ghost use Rattle.std.specs.Prelude.{◌≡◌, length};
ghost use Rattle.protocol.specs.Outcome.{outcome};
ghost use Rattle.c_count.specs.Numbers.{number_in, WindowIs};

// How many records the input has; where the count is refused, the largest number less the refusal's number.
#[unsafe(no_mangle)]
pub extern "C" fn fq_count(input: &[u8], window: &mut [u8], chunk: usize) -> u64
    ensures answer { result ≡ number_in (outcome input.now (length window.old) chunk) }
    ensures bytes { WindowIs input.now window.old chunk window.new (outcome input.now (length window.old) chunk) }
{
    c_count::fq_count(input, window, chunk)
}
