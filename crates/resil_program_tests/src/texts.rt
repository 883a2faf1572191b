//! Texts and rows of values that no input reaches, and the messages of errors.

use resil_admission::{AdmitError, Event, Id, Reply, Row, Verdict};
use resil_chain::head::read_head;
use resil_chain::runs::run_row;
use resil_decor::{DecorError, Run};
use resil_driver::run::report::report_text;
use resil_driver::{CommandError, InputRefusal, RunRefusal, UsageError, refusal_line};
use resil_heads::HeadError;
use resil_input::csv_rows::BodyError;
use resil_input::io::{ReadError, ReadFailure, WriteError};
use resil_replay::audit::verdict_text;
use resil_replay::events;
use resil_replay::history::{Version, history_text};
use std::alloc::Global;
use std::fmt::Display;
use std::process::Abort;

const GREATEST: Id = Id {
    caller: 65_535,
    number: 18_446_744_073_709_551_615,
};

const HISTORY: [Event; 2] = [
    Event::Submit {
        id: GREATEST,
        reply: Reply::Extra,
    },
    Event::Finish(GREATEST),
];

#[test]
fn history_of_the_greatest_id(rt: HostRuntime) {
    let text = history_text(rt.alloc(), Version::One, &HISTORY).expect(&rt, "a text");
    let expected = b"event,caller,number,reply\nsubmit,65535,18446744073709551615,extra\n\
        finish,65535,18446744073709551615,\n";
    assert!(rt; text.as_slice() == expected.as_slice());
    let history = events::read_rows(rt.alloc(), expected).expect(&rt, "a history");
    assert!(rt; history.as_slice() == HISTORY.as_slice());
}

// The run of a job through a bulkhead under a retry. The rows of a `chain` give its script and the
// answers of the bulkhead.
fn run_of(rt: &impl Abort, alloc: Global, body: &[u8]) -> Run {
    let head = b"layer = [{ kind = \"bulkhead\", name = \"db\" }, { kind = \"retry\" }]\n";
    let layers = read_head(alloc, head).expect(rt, "layers");
    let mut rows = resil_chain::rows::read_rows(alloc, body).expect(rt, "rows");
    let row = rows.pop().expect(rt, "a row");
    run_row(alloc, &layers, row).expect(rt, "a run")
}

#[test]
fn report_of_the_greatest_id(rt: HostRuntime) {
    let row = Row {
        id: GREATEST,
        run: run_of(&rt, rt.alloc(), b"script,grants\nV-7,nny\n"),
    };
    let text = report_text(rt.alloc(), &HISTORY, &[row]).expect(&rt, "a text");
    let expected = b"event,caller,number,reply\nsubmit,65535,18446744073709551615,extra\n\
        finish,65535,18446744073709551615,\n\ncaller,number,outcome,calls,waits,asked\n\
        65535,18446744073709551615,V-7,1,500;500,0n;0n;0y\n";
    assert!(rt; text.as_slice() == expected.as_slice());
}

#[test]
fn greatest_position(rt: HostRuntime) {
    let verdict = Verdict::FirstIllegal(18_446_744_073_709_551_615);
    let text = verdict_text(rt.alloc(), verdict).expect(&rt, "a text");
    assert!(rt; text.as_slice() == b"illegal 18446744073709551615\n".as_slice());
}

// The caller of the one job of a body of `run`.
fn caller_of(rt: &impl Abort, alloc: Global, body: &[u8]) -> u16 {
    let mut jobs = resil_driver::run::rows::read_rows(alloc, 65_535, body).expect(rt, "rows");
    jobs.pop().expect(rt, "a row").caller
}

#[test]
fn greatest_caller_of_a_job(rt: HostRuntime) {
    assert!(rt; caller_of(&rt, rt.alloc(), b"caller,script\n65535,V7\n") == 65_535);
}

#[test]
fn lines_of_refused_runs(rt: HostRuntime) {
    for (why, wanted) in [
        (RunRefusal::Stranger, "refused run Stranger\n"),
        (RunRefusal::ReceiptsDiffer, "refused run ReceiptsDiffer\n"),
    ] {
        let line = refusal_line(rt.alloc(), InputRefusal::Run(why)).expect(&rt, "a line");
        assert!(rt; line.as_str() == wanted, "{wanted}");
    }
}

// Asserts the message of an error.
fn assert_message(rt: &impl Abort, alloc: Global, error: &impl Display, wanted: &str) {
    let text = format!(in alloc; "{error}").expect(rt, "room for a text");
    assert!(rt; text.as_str() == wanted, "{wanted}");
}

const HEAD_ERRORS: &str = "a required key of the head is missing
the core size is not from 1 to 64, or to 1024 in a pool for more than 64 workers
a chain may make at most 1,000 calls
there are more than 65535 permits";

#[test]
fn printed_errors_of_heads(rt: HostRuntime) {
    let errors = [
        HeadError::MissingKey,
        HeadError::Limits(AdmitError::CoreOutOfRange),
        HeadError::Chain(DecorError::TooManyCalls),
        HeadError::TooManyPermits,
    ];
    for (error, wanted) in errors.iter().zip(HEAD_ERRORS.lines()) {
        assert_message(&rt, rt.alloc(), error, wanted);
    }
}

#[test]
fn printed_errors(rt: HostRuntime) {
    let alloc = rt.alloc();
    assert_message(&rt, alloc, &BodyError::BadRow(3), "row 3 is invalid");
    assert_message(&rt, alloc, &ReadError::Reader, "a read failed");
    assert_message(&rt, alloc, &ReadFailure, "a read failed");
    assert_message(&rt, alloc, &WriteError, "a write failed");
    assert_message(&rt, alloc, &UsageError::Usage, "the arguments are refused");
    let no_thread = "a thread could not be started";
    assert_message(&rt, alloc, &CommandError::NoThread, no_thread);
}
