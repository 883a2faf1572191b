//! The program over a reader and a writer, as the tests of several parts run it.

use resil_driver::{drive, drive_single};
use resil_input::io::FailureTracking;
use std::alloc::Global;
use std::io::{Read, Write};
use std::process::Abort;
use std::sync::Wait;
use std::thread::Threads;

/// What a test needs: it may end the process, wait and start threads, and allocate memory.
pub trait Host: Abort + Threads + Wait + Sync + AllocGlobal {}

impl<R: Abort + Threads + Wait + Sync + AllocGlobal> Host for R {}

/// How a call of the program ended, and its reader and its writer after it.
#[derive(Drop)]
pub struct ProgramEnd<S, W> {
    /// The number of the status.
    pub status: u8,
    /// The reader, with what was left unread.
    pub reader: S,
    /// Whether a read failed.
    pub has_read_failed: bool,
    /// The writer, with what was written.
    pub writer: W,
    /// Whether a write failed.
    pub has_write_failed: bool,
}

/// Runs the program from this reader to this writer.
pub fn run_program<S: Read, W: Write>(
    rt: &impl Host,
    words: &[&str],
    reader: S,
    writer: W,
) -> ProgramEnd<S, W> {
    let mut reader = FailureTracking::new(reader);
    let mut writer = FailureTracking::new(writer);
    let status = drive(rt, words, &mut reader, &mut writer);
    let has_read_failed = reader.has_failed();
    let has_write_failed = writer.has_failed();
    ProgramEnd {
        status,
        reader: reader.into_inner(),
        has_read_failed,
        writer: writer.into_inner(),
        has_write_failed,
    }
}

/// The result of the part of the program that starts no thread, what it left unread, and what it wrote after this prefix.
pub fn run_single<'a>(
    alloc: Global,
    words: &[&str],
    input: &'a [u8],
    before: Vec<u8>,
) -> (Option<u8>, &'a [u8], Vec<u8>) {
    let mut reader = FailureTracking::new(input);
    let mut writer = FailureTracking::new(before);
    let status = drive_single(alloc, words, &mut reader, &mut writer);
    (status, reader.into_inner(), writer.into_inner())
}

/// Whether the program gives this status for an input, and writes this text.
pub fn answers(rt: &impl Host, words: &[&str], input: &[u8], status: u8, text: &str) -> bool {
    let ended = run_program(rt, words, input, Vec::new(rt.alloc()));
    ended.status == status && ended.writer.as_slice() == text.as_bytes()
}
