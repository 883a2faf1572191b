//! The program over readers and writers that work in pieces, and over ones that fail.

use crate::shared::{Host, run_program, run_single};
use resil_input::io::MAX_INPUT_LEN;
use std::alloc::Global;
use std::io;
use std::io::{ErrorKind, Read, Write};
use std::test::Fail;

const WEAVE: [&str; 2] = ["resil", "weave"];

const RUN: [&str; 2] = ["resil", "run"];

const INPUT: &[u8] = b"permits = 1\n---\nstep,caller\nload,0\n";

const TEXT: &[u8] = b"step,caller,shown\nload,0,loaded\nword,,1\n";

// Returns a text in pieces, is interrupted before each of them, and fails after some reads.
#[derive(Drop)]
struct PieceReader<'a> {
    rest: &'a [u8],
    size: usize,
    reads_left: usize,
    interrupted: bool,
}

impl<'a> PieceReader<'a> {
    fn new(text: &'a [u8], size: usize) -> PieceReader<'a> {
        PieceReader {
            rest: text,
            size,
            reads_left: usize::MAX,
            interrupted: false,
        }
    }
}

impl Read for PieceReader<'_> {
    fn read(&mut self, space: &mut [u8]) -> io::Result<usize> {
        self.interrupted = !self.interrupted;
        if self.interrupted {
            return Err(ErrorKind::Interrupted.into());
        }
        if self.reads_left == 0 {
            return Err(ErrorKind::Other.into());
        }
        self.reads_left -= 1;
        let count = self.size.min(space.len()).min(self.rest.len());
        let (piece, rest) = self.rest.split_at(count);
        space[..count].copy_from_slice(piece);
        self.rest = rest;
        Ok(count)
    }
}

// Accepts a text in pieces, is interrupted before each of them and before it is flushed, and then fails, or accepts no more bytes.
#[derive(Drop)]
struct FailingWriter {
    taken: Vec<u8>,
    size: usize,
    room: usize,
    is_full_silently: bool,
    flushes: bool,
    interrupted: bool,
}

impl FailingWriter {
    fn new(alloc: Global, size: usize, room: usize) -> FailingWriter {
        FailingWriter {
            taken: Vec::new(alloc),
            size,
            room,
            is_full_silently: false,
            flushes: true,
            interrupted: false,
        }
    }
}

impl Write for FailingWriter {
    fn write(&mut self, text: &[u8]) -> io::Result<usize> {
        self.interrupted = !self.interrupted;
        if self.interrupted {
            return Err(ErrorKind::Interrupted.into());
        }
        if self.room == 0 && !self.is_full_silently {
            return Err(ErrorKind::StorageFull.into());
        }
        let count = self.size.min(self.room).min(text.len());
        self.taken.extend_from_slice(&text[..count])?;
        self.room -= count;
        Ok(count)
    }

    fn flush(&mut self) -> io::Result<()> {
        self.interrupted = !self.interrupted;
        if self.interrupted {
            return Err(ErrorKind::Interrupted.into());
        }
        if self.flushes {
            Ok(())
        } else {
            Err(ErrorKind::BrokenPipe.into())
        }
    }
}

// Whether the program ends at a read that fails after this many reads, and writes nothing.
fn ends_after(rt: &impl Host, words: &[&str], reads_left: usize) -> bool {
    let mut pieces = PieceReader::new(INPUT, 7);
    pieces.reads_left = reads_left;
    let ended = run_program(rt, words, pieces, Vec::new(rt.alloc()));
    ended.status == 4 && ended.has_read_failed && ended.writer.is_empty()
}

#[test]
fn ends_at_the_first_read_that_fails(rt: HostRuntime) {
    for words in [&WEAVE, &RUN] {
        for reads_left in 0..6 {
            let ends = ends_after(&rt, words, reads_left);
            assert!(rt; ends, "after {reads_left} reads");
        }
    }
}

// Asserts that an input of one byte repeated, in pieces of a size, is refused by this line, with this many bytes of it left unread.
fn refuses_repeated(
    rt: &impl Host,
    (byte, count): (u8, usize),
    size: usize,
    line: &[u8],
    left: usize,
) -> Result<(), Fail> {
    let input = vec![in rt.alloc(); byte; count]?;
    for words in [&WEAVE, &RUN] {
        let pieces = PieceReader::new(&input, size);
        let ended = run_program(rt, words, pieces, Vec::new(rt.alloc()));
        assert!(rt; ended.status == 1 && ended.writer.as_slice() == line);
        assert!(rt; ended.reader.rest.len() == left);
    }
    Ok(())
}

#[test]
fn reads_a_mebibyte_and_no_more(rt: HostRuntime) -> Result<(), Fail> {
    assert_eq!(rt; MAX_INPUT_LEN, 1_048_576);
    for (byte, size) in [(b'#', 7), (b'#', 5000), (b'\n', 5000), (b'-', 5000)] {
        refuses_repeated(&rt, (byte, 1_048_576), size, b"refused input NoBody\n", 0)?;
        refuses_repeated(&rt, (byte, 1_048_600), size, b"refused input TooLong\n", 23)?;
    }
    Ok(())
}

// Whether a write that fails after this number of bytes, or accepts no more of them, ends the program there.
fn ends_behind(rt: &impl Host, input: &[u8], prefix: &[u8], is_full_silently: bool) -> bool {
    let mut paper = FailingWriter::new(rt.alloc(), 3, prefix.len());
    paper.is_full_silently = is_full_silently;
    let ended = run_program(rt, &WEAVE, input, paper);
    ended.status == 4 && ended.has_write_failed && ended.writer.taken.as_slice() == prefix
}

#[test]
fn ends_at_the_first_write_that_fails(rt: HostRuntime) {
    for (input, text) in [
        (INPUT, TEXT),
        (b"".as_slice(), b"refused input NoBody\n".as_slice()),
    ] {
        for room in 0..text.len() {
            let prefix = &text[..room];
            for silently in [false, true] {
                let ends = ends_behind(&rt, input, prefix, silently);
                assert!(rt; ends, "after {room} bytes");
            }
        }
    }
}

#[test]
fn needs_the_flush(rt: HostRuntime) {
    let mut paper = FailingWriter::new(rt.alloc(), 100, 100);
    paper.flushes = false;
    let ended = run_program(&rt, &WEAVE, INPUT, paper);
    let has_failed = ended.status == 4 && ended.has_write_failed;
    assert!(rt; has_failed && ended.writer.taken.as_slice() == TEXT);
}

// Asserts of the part of the program that starts no thread that it gives this status, reads nothing, and writes this text.
fn answers_without_reading(rt: &impl Host, words: &[&str], status: Option<u8>, text: &[u8]) {
    let (given, unread, written) = run_single(rt.alloc(), words, INPUT, Vec::new(rt.alloc()));
    let answers = given == status && unread == INPUT && written.as_slice() == text;
    assert!(rt; answers, "at {words:?}");
}

#[test]
fn refused_words_read_nothing(rt: HostRuntime) {
    let refused: [&[&str]; 5] = [
        &[],
        &["resil"],
        &["resil", "--help"],
        &["resil", "run", "--callers", "65"],
        &["resil", "replay", "now"],
    ];
    for words in refused {
        answers_without_reading(&rt, words, Some(2), b"refused usage\n");
    }
}

#[test]
fn words_of_run_are_left_to_threads(rt: HostRuntime) {
    let run: [&[&str]; 3] = [
        &["resil", "run"],
        &["resil", "run", "--hold"],
        &["resil", "run", "--callers", "64"],
    ];
    for words in run {
        answers_without_reading(&rt, words, None, b"");
    }
}
