//! Reads all of an input up to a limit, and writes a text, over any reader and writer.
//!
//! `InputReader` and `OutputWriter` say what a reader and a writer are: contracts see the bytes left
//! to read, the bytes written, and whether a call has failed. So their owner can distinguish a failed
//! call from every other end. `FailureTracking` makes them from a reader and a writer of `std`.

ghost use Rattle.std.specs.Prelude.{◌≡◌, ◌≤◌, ◌<◌, ◌+◌, ◌-◌, ◌||◌, false, length, vec_len, is_err, IfOk, OnOk, IfSome};
ghost use Rattle.std.specs.Io.KnownBytes.{Appends, Keeps, ReadConsumes, WriteAppends};
ghost use Rattle.resil_input.specs.Io.{inner_of, has_failed, input_limit, is_reader_error, AddsRead, IsInput, IsInputUpTo, ConsumesAtMost, AppendsPrefix};

use std::alloc::Global;
use std::io::{ErrorKind, Read, Write};
use thiserror::Error;

/// The maximum length of an input of the program `resil`, and of a head with its separator line, in bytes: one mebibyte.
pub const MAX_INPUT_LEN: usize = 1_048_576;

// The most bytes that one read asks for. Room for them is zeroed at each start, so there are few.
const MAX_READ_LEN: usize = 16_384;

/// A read failed.
#[derive(Clone, Copy, Debug, Error)]
#[error("a read failed")]
pub struct ReadFailure;

/// A write or a flush failed, or a write took no byte.
#[derive(Clone, Copy, Debug, Error)]
#[error("a write failed")]
pub struct WriteError;

/// What an input is read from.
pub trait InputReader {
    ghost use Rattle.std.specs.Prelude.{ℕ, Bool, List, Option};

    /// The bytes left to read, if they are known.
    ghost remaining: { Self → Option (List ℕ) };

    /// Whether a call to it has failed.
    ghost has_failed: { Self → Bool };

    /// Reads once. Returns how many bytes of `space` it filled: 0 at the end of the input, or if
    /// `space` is empty.
    ///
    /// # Errors
    ///
    /// `ReadFailure` if the read fails.
    fn read(&mut self, space: &mut [u8]) -> Result<usize, ReadFailure>
        ensures within { IfOk result (λ count. count ≤ length space.new) }
        ensures bytes { ReadConsumes (remaining self.old) (remaining self.new) result space.new }
        ensures failed { has_failed self.new ≡ (has_failed self.old || is_err result) };

    /// Gets the whole input back once it is answered, if it was no longer than the limit. A reader whose owner
    /// explains the answer keeps it; another drops it.
    fn take_back(&mut self, input: Vec<u8>)
        ensures bytes { remaining self.new ≡ remaining self.old }
        ensures failed { has_failed self.new ≡ has_failed self.old };
}

/// What an output is written to.
pub trait OutputWriter {
    ghost use Rattle.std.specs.Prelude.{ℕ, Bool, List, Option};

    /// The bytes that it holds, if they are known.
    ghost contents: { Self → Option (List ℕ) };

    /// Whether a call to it has failed.
    ghost has_failed: { Self → Bool };

    /// Writes once. Returns the length of the prefix of `text` that was taken, in bytes.
    ///
    /// # Errors
    ///
    /// `WriteError` if the write fails or takes no byte.
    fn write(&mut self, text: &[u8]) -> Result<usize, WriteError>
        ensures some { IfOk result (λ count. 0 < count) }
        ensures within { IfOk result (λ count. count ≤ length text.now) }
        ensures bytes { WriteAppends (contents self.old) (contents self.new) result text.now }
        ensures failed { has_failed self.new ≡ (has_failed self.old || is_err result) };

    /// Flushes what it still holds.
    ///
    /// # Errors
    ///
    /// `WriteError` if the flush fails.
    fn flush(&mut self) -> Result<(), WriteError>
        ensures bytes { Keeps (contents self.old) (contents self.new) }
        ensures failed { has_failed self.new ≡ (has_failed self.old || is_err result) };
}

/// A reader or writer of `std` that remembers whether a call to it failed.
///
/// An interrupted call, a flush included, is made again and hasn't failed. Only 2^64 - 1
/// interruptions in a row are a failure.
///
/// `std` doesn't say when a call returns an error. So a call to this has failed exactly if it set its
/// own mark, which it does if and only if it returns an error. That it returns one only if the inner
/// reader or writer did, or took no byte, is tested and not proved.
#[derive(Drop)]
pub struct FailureTracking<S> {
    inner: S,
    failed: bool,
}

impl<S> FailureTracking<S> {
    /// Wraps a reader or writer. No call to it has failed yet.
    pub fn new(inner: S) -> FailureTracking<S>
        ensures inner { inner_of result ≡ inner }
        ensures fresh { has_failed result ≡ false }
    {
        FailureTracking {
            inner,
            failed: false,
        }
    }

    /// Whether a call to it failed.
    pub fn has_failed(&self) -> bool
        ensures { result ≡ has_failed self.now }
    {
        self.failed
    }

    /// The reader or writer itself.
    pub fn into_inner(self) -> S
        ensures { result ≡ inner_of self }
    {
        let FailureTracking { inner, failed: _ } = self;
        inner
    }
}

impl<R: Read> InputReader for FailureTracking<R> {
    ghost remaining = { λ s. R.remaining (inner_of s) };

    ghost has_failed = { has_failed };

    fn read(&mut self, space: &mut [u8]) -> Result<usize, ReadFailure> {
        for _turn in 0..u64::MAX {
            match self.inner.read(space) {
                Ok(count) => return Ok(count),
                Err(error) if error.kind() == ErrorKind::Interrupted => {}
                Err(_) => break,
            }
        }
        self.failed = true;
        Err(ReadFailure)
    }

    fn take_back(&mut self, _input: Vec<u8>) {}
}

impl<W: Write> OutputWriter for FailureTracking<W> {
    ghost contents = { λ s. W.contents (inner_of s) };

    ghost has_failed = { has_failed };

    fn write(&mut self, text: &[u8]) -> Result<usize, WriteError> {
        for _turn in 0..u64::MAX {
            match self.inner.write(text) {
                Ok(count) if count > 0 => return Ok(count),
                Err(error) if error.kind() == ErrorKind::Interrupted => {}
                _ => break,
            }
        }
        self.failed = true;
        Err(WriteError)
    }

    fn flush(&mut self) -> Result<(), WriteError> {
        for _turn in 0..u64::MAX {
            match self.inner.flush() {
                Ok(()) => return Ok(()),
                Err(error) if error.kind() == ErrorKind::Interrupted => {}
                Err(_) => break,
            }
        }
        self.failed = true;
        Err(WriteError)
    }
}

/// An input, as it was read.
#[derive(Drop)]
pub enum Input {
    /// All its bytes; they are within the limit of the read.
    Whole(Vec<u8>),
    /// It has more bytes than the limit.
    TooLong,
}

/// Why an input wasn't read.
#[derive(Clone, Copy, Debug, Error)]
pub enum ReadError {
    /// Out of memory.
    #[error("out of memory")]
    Memory,
    /// A read failed.
    #[error("a read failed")]
    Reader,
}

/// Reads to the end of the input, or to the first byte past `MAX_INPUT_LEN`, and no further.
///
/// # Errors
///
/// The first that is met: `Reader` if a read fails; `Memory` when out of memory.
pub fn read_input<R: InputReader>(alloc: Global, reader: &mut R) -> Result<Input, ReadError>
    ensures input { IfOk result (λ input. IfSome (R.remaining reader.old) (λ bytes. IsInput bytes input)) }
    ensures taken { ConsumesAtMost (input_limit + 1) (R.remaining reader.old) (R.remaining reader.new) }
    ensures failed { R.has_failed reader.new ≡ (R.has_failed reader.old || is_reader_error result) }
{
    read_up_to(alloc, reader, MAX_INPUT_LEN)
}

/// Reads to the end of the input, or to the first byte past a limit, and no further.
///
/// # Errors
///
/// Those of `read_input`.
pub fn read_up_to<R: InputReader>(
    alloc: Global,
    reader: &mut R,
    limit: usize,
) -> Result<Input, ReadError>
    ensures input { IfOk result (λ input. IfSome (R.remaining reader.old) (λ bytes. IsInputUpTo limit bytes input)) }
    ensures taken { ConsumesAtMost (limit + 1) (R.remaining reader.old) (R.remaining reader.new) }
    ensures failed { R.has_failed reader.new ≡ (R.has_failed reader.old || is_reader_error result) }
{
    let mut bytes = Vec::new(alloc);
    let mut piece = [0u8; MAX_READ_LEN];
    'pieces: while bytes.len() <= limit {
        let count = read_piece(reader, limit, &mut piece, &mut bytes)?;
        if count == 0 {
            return Ok(Input::Whole(bytes));
        }
    }
    Ok(Input::TooLong)
}

// Reads once, at most to the first byte past the limit, and adds what was read to the bytes.
// Returns how many bytes were read: 0 at the end of the input. Errors: `Reader` if the read fails;
// `Memory` when out of memory.
fn read_piece<R: InputReader>(
    reader: &mut R,
    limit: usize,
    piece: &mut [u8],
    bytes: &mut Vec<u8>,
) -> Result<usize, ReadError>
    requires room { vec_len bytes.old ≤ limit }
    requires piece { 0 < length piece.old }
    ensures added { IfOk result (AddsRead (R.remaining reader.old) (R.remaining reader.new) bytes.old.items bytes.new.items) }
    ensures within { IfOk result (λ _. vec_len bytes.new ≤ limit + 1) }
    ensures taken { ConsumesAtMost (limit + 1 - vec_len bytes.old) (R.remaining reader.old) (R.remaining reader.new) }
    ensures failed { R.has_failed reader.new ≡ (R.has_failed reader.old || is_reader_error result) }
{
    let most = (limit - bytes.len()).min(piece.len() - 1) + 1;
    let space = &mut piece[..most];
    let Ok(count) = reader.read(space) else {
        return Err(ReadError::Reader);
    };
    if bytes.extend_from_slice(&space[..count]).is_err() {
        return Err(ReadError::Memory);
    }
    Ok(count)
}

/// Writes all of a text, and flushes the writer.
///
/// # Errors
///
/// `WriteError` at the first write that fails or takes no byte, or if the flush fails. A prefix of
/// the text was written then.
pub fn write_text<W: OutputWriter>(writer: &mut W, text: &[u8]) -> Result<(), WriteError>
    ensures whole { OnOk result (Appends (W.contents writer.old) (W.contents writer.new) text.now) }
    ensures front { AppendsPrefix (W.contents writer.old) (W.contents writer.new) text.now }
    ensures failed { W.has_failed writer.new ≡ (W.has_failed writer.old || is_err result) }
{
    let mut written = 0;
    while written < text.len() {
        written += writer.write(&text[written..])?;
    }
    writer.flush()
}
