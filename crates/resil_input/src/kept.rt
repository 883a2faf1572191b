//! A reader and a writer that pass on what another one reads and writes, and keep the input and the front of the output.

ghost use Rattle.std.specs.Prelude.{◌≡◌};
ghost use Rattle.resil_input.specs.Kept.{reader_of, writer_of};

use crate::io::{InputReader, OutputWriter, ReadFailure, WriteError};

// How many bytes of an output are kept: more than the line of a refusal has.
const FRONT_LEN: usize = 64;

/// A reader that keeps the input that it gets back.
#[derive(Drop)]
pub struct KeptInput<R> {
    inner: R,
    kept: Option<Vec<u8>>,
}

impl<R> KeptInput<R> {
    /// Reads from this reader.
    pub fn new(inner: R) -> KeptInput<R>
        ensures { reader_of result ≡ inner }
    {
        KeptInput { inner, kept: None }
    }

    /// The whole input, in bytes, or `None` if it didn't come back: none was read, it was too long, a read failed, or out of
    /// memory.
    pub fn input(&self) -> Option<&[u8]> {
        self.kept.as_ref().map(|input| input.as_slice())
    }
}

impl<R: InputReader> InputReader for KeptInput<R> {
    ghost remaining = { λ s. R.remaining (reader_of s) };

    ghost has_failed = { λ s. R.has_failed (reader_of s) };

    fn read(&mut self, space: &mut [u8]) -> Result<usize, ReadFailure> {
        self.inner.read(space)
    }

    fn take_back(&mut self, input: Vec<u8>) {
        self.kept = Some(input);
    }
}

// The first bytes of an output.
#[derive(Clone, Copy)]
struct Front {
    bytes: [u8; FRONT_LEN],
    len: usize,
}

impl Front {
    // Adds bytes, as far as there is room.
    fn add(&mut self, written: &[u8]) {
        for byte in written {
            if self.len >= FRONT_LEN {
                break;
            }
            self.bytes[self.len] = *byte;
            self.len += 1;
        }
    }
}

/// A writer that keeps the first bytes that it wrote. It takes no memory.
#[derive(Drop)]
pub struct KeptFront<W> {
    inner: W,
    front: Front,
}

impl<W> KeptFront<W> {
    /// Writes to this writer.
    pub fn new(inner: W) -> KeptFront<W>
        ensures { writer_of result ≡ inner }
    {
        KeptFront {
            inner,
            front: Front {
                bytes: [0u8; FRONT_LEN],
                len: 0,
            },
        }
    }

    /// The first bytes that were written, at most 64.
    pub fn front(&self) -> &[u8] {
        self.front.bytes.get(..self.front.len).unwrap_or(&[])
    }
}

impl<W: OutputWriter> OutputWriter for KeptFront<W> {
    ghost contents = { λ s. W.contents (writer_of s) };

    ghost has_failed = { λ s. W.has_failed (writer_of s) };

    fn write(&mut self, text: &[u8]) -> Result<usize, WriteError> {
        let written = self.inner.write(text);
        if let Ok(count) = written {
            self.front.add(&text[..count]);
        }
        written
    }

    fn flush(&mut self) -> Result<(), WriteError> {
        self.inner.flush()
    }
}
