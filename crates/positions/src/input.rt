// Standard input, in chunks.
use std::io;
use std::io::Read;

// The chunk's bytes from `from` up to `to` are not taken yet: fixed memory, since a buffered reader would take a heap.
#[derive(Drop)]
pub struct Input<'a, R> {
    stdin: &'a mut R,
    chunk: &'a mut [u8],
    from: usize,
    to: usize,
}

impl<'a, R: Read> Input<'a, R> {
    pub fn new(stdin: &'a mut R, chunk: &'a mut [u8]) -> Input<'a, R> {
        Input {
            stdin,
            chunk,
            from: 0,
            to: 0,
        }
    }

    // Reads where nothing is left of the chunk. Nothing is left then at the end of the input alone.
    pub fn fill(&mut self) -> io::Result<()> {
        if self.to <= self.from {
            self.from = 0;
            self.to = self.stdin.read(self.chunk)?;
        }
        Ok(())
    }

    // What is left of the chunk.
    pub fn left(&self) -> &[u8] {
        self.chunk.get(self.from..self.to).unwrap_or_default()
    }

    // The reader took so many bytes.
    pub fn take(&mut self, count: usize) {
        self.from = self.from.wrapping_add(count);
    }
}
