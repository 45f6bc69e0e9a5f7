// Whether a refused call left the state and the window as they were.
use reader::Reader;

// A state, and a copy of a window of at most 64 bytes, with zeros behind it: fixed memory, no heap.
#[derive(Clone, Copy, PartialEq, Eq)]
pub struct Held {
    state: Reader,
    window: [u8; 64],
}

impl Held {
    pub fn of(state: Reader, lent: &[u8]) -> Held {
        let mut window = [0u8; 64];
        lines::copy_into(&mut window, lent);
        Held { state, window }
    }
}
