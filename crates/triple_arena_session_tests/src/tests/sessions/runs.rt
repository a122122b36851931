//! Runs of texts over memory.

use super::devices::{Reads, WriteFailure, Writes};
use super::kinds::{Kind, tries};
use super::texts::{Asked, BY_BYTES, Dialogue, Run};
use std::alloc::Global;
use std::io::ErrorKind;
use std::process::Abort;
use triple_arena_session::TextError;

// Expects a new session of general use to answer these texts.
fn answers(rt: &impl Abort, alloc: Global, name: &str, runs: &[Run<'_>]) {
    tries(rt, alloc, Kind::General, &Asked::of(name, runs));
}

const FAILED_READ: Result<(), TextError> = Err(TextError::Read);

const FAILED_WRITE: Result<(), TextError> = Err(TextError::Write);

const MALFORMED_FIRST: Result<(), TextError> = Err(TextError::Malformed(1));

const MALFORMED_SECOND: Result<(), TextError> = Err(TextError::Malformed(2));

/// A text up to its malformed line, and one after it.
#[test]
fn a_session_goes_on_after_a_malformed_line(rt: HostRuntime) {
    let first = Run {
        outcome: MALFORMED_SECOND,
        ..Run::of("insert 1 -\nwhat\n", "given 1\n")
    };
    let second = Run::of("insert 2 1\nget 2\n", "given 2\nfound 2 1\n");
    let rows: &[(&str, Kind)] = &[
        ("a session", Kind::General),
        ("a strict session", Kind::Strict),
    ];
    for (name, kind) in rows {
        let runs = [first, second];
        tries(&rt, rt.alloc(), *kind, &Asked::of(*name, &runs));
    }
}

/// Each read of a text of 20 bytes fails in turn, the one that would find its end too, once or with all
/// after it. It does so after a malformed line, too, since all is read before the first command runs.
/// Entries, room, free list and counter are as they were.
#[test]
fn changes_nothing_where_a_read_fails(rt: HostRuntime) {
    let rows: &[(&str, &str, ErrorKind, usize)] = &[
        ("once", "insert 1 -\nremove 1\n", ErrorKind::Other, 1),
        (
            "from then on",
            "insert 1 -\nremove 1\n",
            ErrorKind::Other,
            usize::MAX,
        ),
        (
            "a malformed line first",
            "what\ninsert 1 -\nlen\n",
            ErrorKind::UnexpectedEof,
            1,
        ),
        (
            "a malformed line between",
            "insert 1 -\nwhat\nlen\n",
            ErrorKind::WouldBlock,
            1,
        ),
    ];
    let begun = Run::of("insert 7 -\nlen\ncapacity\n", "given 1\ncount 1\ncount 4\n");
    let gone_on = Run::of(
        "len\ncapacity\nget 1\ninsert 8 -\nshow\n",
        "count 1\ncount 4\nfound 7 -\ngiven 2\n{P0[1](2): (7, None), P0[2](2): (8, None)}\n",
    );
    for (name, text, failure, times) in rows {
        for before in 0..21 {
            let reads = Reads {
                most: 1,
                before,
                failure: *failure,
                times: *times,
            };
            let failed = Run {
                reads,
                outcome: FAILED_READ,
                ..Run::of(*text, "")
            };
            answers(&rt, rt.alloc(), *name, &[begun, failed, gone_on]);
        }
    }
}

/// Each read in turn is interrupted, once and a thousand times, and made again each time.
#[test]
fn reads_on_after_an_interruption(rt: HostRuntime) {
    for times in [1, 1000] {
        for before in 0..13 {
            let reads = Reads {
                most: 1,
                before,
                failure: ErrorKind::Interrupted,
                times,
            };
            let run = Run {
                reads,
                ..Run::of("insert 1 -\n", "given 1\n")
            };
            answers(&rt, rt.alloc(), "an interrupted read", &[run]);
        }
    }
}

// Expects a text of 100 insertions, in 1,100 bytes, to end so whose read after so many fails so, and to give
// no name, or a hundred, each of which finds its entry.
fn takes_reads(
    rt: &impl Abort,
    alloc: Global,
    before: usize,
    failure: ErrorKind,
    outcome: Result<(), TextError>,
) {
    let (mut insertions, mut found) = (Dialogue::new(alloc), Dialogue::new(alloc));
    insertions.insert(rt, Some(5), 100);
    found.get(rt, Some(5), 101);
    let reads = Reads {
        most: 1,
        before,
        failure,
        times: 1,
    };
    let text = insertions.text.as_str();
    if outcome.is_ok() {
        let run = Run {
            reads,
            ..insertions.run()
        };
        answers(rt, alloc, "a text that is read", &[run, found.run()]);
    } else {
        let run = Run {
            reads,
            outcome,
            ..Run::of(text, "")
        };
        let none = Run::of("len\nget 1\nget 100\n", "count 0\nnothing\nnothing\n");
        answers(rt, alloc, "a text that isn't read", &[run, none]);
    }
}

/// As many reads as it has bytes, and one more that finds its end, any of which may be interrupted or fail.
#[test]
fn takes_a_thousand_reads(rt: HostRuntime) {
    let rows: &[(usize, ErrorKind, Result<(), TextError>)] = &[
        (usize::MAX, ErrorKind::Other, Ok(())),
        (1000, ErrorKind::Interrupted, Ok(())),
        (1000, ErrorKind::Other, FAILED_READ),
        (1100, ErrorKind::Other, FAILED_READ),
        (1101, ErrorKind::Other, Ok(())),
    ];
    for (before, failure, outcome) in rows {
        takes_reads(&rt, rt.alloc(), *before, *failure, *outcome);
    }
}

/// A text with its lines, of which the writes of a byte from one to another are refused: then so many of
/// its insertions of 1 have run.
type Stop<'a> = (&'a str, &'a str, &'a str, usize, usize, usize);

// What finds the entries of up to three insertions of 1, and counts them.
const LOOK_UPS: &str = "get 1\nget 2\nget 3\nget 4\nlen\n";

// What look-ups find after so many insertions.
fn found_after(insertions: usize) -> &'static str {
    match insertions {
        1 => "found 1 -\nnothing\nnothing\nnothing\ncount 1\n",
        2 => "found 1 -\nfound 1 -\nnothing\nnothing\ncount 2\n",
        _ => "found 1 -\nfound 1 -\nfound 1 -\nnothing\ncount 3\n",
    }
}

// How a write fails.
const FAILURES: [WriteFailure; 5] = [
    WriteFailure::Error(ErrorKind::Other),
    WriteFailure::Error(ErrorKind::BrokenPipe),
    WriteFailure::Once(ErrorKind::Other),
    WriteFailure::Once(ErrorKind::WouldBlock),
    WriteFailure::TakesNone,
];

// Expects each of these writes to end a run, by errors of several kinds, or as it takes nothing: what was
// written before is all.
fn stops_at_each_write(rt: &impl Abort, alloc: Global, rows: &[Stop<'_>]) {
    for (name, text, lines, first, last, ran) in rows {
        for failure in FAILURES {
            for before in *first..=*last {
                let writes = Writes {
                    most: 1,
                    before,
                    failure,
                };
                let lines = lines.as_bytes();
                let stopped = Run {
                    writes,
                    outcome: FAILED_WRITE,
                    lines: &lines[..before.min(lines.len())],
                    ..Run::of(*text, "")
                };
                let found = Run::of(LOOK_UPS, found_after(*ran));
                answers(rt, alloc, *name, &[stopped, found]);
            }
        }
    }
}

// Three insertions, and the lines of their replies, of eight bytes each.
const INSERTIONS: &str = "insert 1 -\ninsert 1 -\ninsert 1 -\n";

const GIVEN: &str = "given 1\ngiven 2\ngiven 3\n";

/// Each write of a byte fails in turn. The command whose reply was being written has run, and no later
/// one.
#[test]
fn runs_no_further_where_a_write_fails(rt: HostRuntime) {
    let rows: &[Stop<'_>] = &[
        ("the first reply", INSERTIONS, GIVEN, 0, 7, 1),
        ("the second reply", INSERTIONS, GIVEN, 8, 15, 2),
        ("the third reply", INSERTIONS, GIVEN, 16, 23, 3),
    ];
    stops_at_each_write(&rt, rt.alloc(), rows);
}

/// Each write fails in turn where the entries are shown between two insertions: the line of the
/// first reply ends with the eighth byte, and that of the entries, of 22 bytes, with the thirtieth.
#[test]
fn runs_no_further_where_the_entries_are_not_written(rt: HostRuntime) {
    let text = "insert 1 -\nshow\ninsert 1 -\n";
    let lines = "given 1\n{P0[1](2): (1, None)}\ngiven 2\n";
    let rows: &[Stop<'_>] = &[
        ("the first reply", text, lines, 0, 7, 1),
        ("the entries", text, lines, 8, 29, 1),
        ("the last reply", text, lines, 30, 37, 2),
    ];
    stops_at_each_write(&rt, rt.alloc(), rows);
}

// Expects three insertions to run to their end over a writer that is refused this write so.
fn writes_on(rt: &impl Abort, alloc: Global, before: usize, failure: WriteFailure) {
    let writes = Writes {
        most: 1,
        before,
        failure,
    };
    let run = Run {
        writes,
        ..Run::of(INSERTIONS, GIVEN)
    };
    let found = Run::of(LOOK_UPS, found_after(3));
    answers(rt, alloc, "writes to the end", &[run, found]);
}

/// Each write in turn is interrupted, once and a thousand times, and made again each time.
#[test]
fn writes_on_after_an_interruption(rt: HostRuntime) {
    for times in [1, 1000] {
        for before in 0..24 {
            writes_on(&rt, rt.alloc(), before, WriteFailure::Interrupted(times));
        }
    }
}

#[test]
fn asks_for_no_write_past_its_last(rt: HostRuntime) {
    let failure = WriteFailure::Error(ErrorKind::Other);
    writes_on(&rt, rt.alloc(), 24, failure);
}

/// Two lines, the second without its end, are cut after each byte.
#[test]
fn a_line_that_is_cut_is_malformed_or_another(rt: HostRuntime) {
    let whole = "insert 10 -\nget 1".as_bytes();
    let rows: &[(&str, usize, usize, Result<(), TextError>, &str)] = &[
        ("nothing", 0, 0, Ok(()), ""),
        ("some of the first line", 1, 10, MALFORMED_FIRST, ""),
        ("the first line", 11, 12, Ok(()), "given 1\n"),
        (
            "some of the second line",
            13,
            16,
            MALFORMED_SECOND,
            "given 1\n",
        ),
        ("both lines", 17, 17, Ok(()), "given 1\nfound 10 -\n"),
    ];
    for (name, first, last, outcome, lines) in rows {
        for size in *first..=*last {
            let run = Run {
                text: &whole[..size.min(whole.len())],
                reads: BY_BYTES,
                outcome: *outcome,
                ..Run::of("", *lines)
            };
            answers(&rt, rt.alloc(), *name, &[run]);
        }
    }
}

/// The command before it has run, and the one after it doesn't.
#[test]
fn a_malformed_line_ends_the_run(rt: HostRuntime) {
    let rows: &[(&str, &str)] = &[
        ("two spaces", "insert 1 -\nget  1\nlen\n"),
        ("a space in front", "insert 1 -\n get 1\nlen\n"),
        ("a space at the end", "insert 1 -\nget 1 \nlen\n"),
        ("a carriage return", "insert 1 -\nget 1\r\nlen\n"),
        ("great letters", "insert 1 -\nGET 1\nlen\n"),
        ("a sign", "insert 1 -\nget +1\nlen\n"),
        ("a dash for a name", "insert 1 -\nget -\nlen\n"),
        (
            "past the greatest number",
            "insert 1 -\nget 18446744073709551616\nlen\n",
        ),
        ("no link", "insert 1 -\ninsert 1\nlen\n"),
        ("a word more", "insert 1 -\ninsert 1 - 2\nlen\n"),
        ("two dashes", "insert 1 -\ninsert 1 --\nlen\n"),
        ("a word after a bare verb", "insert 1 -\nlen 1\nlen\n"),
    ];
    for (name, text) in rows {
        let run = Run {
            reads: BY_BYTES,
            outcome: MALFORMED_SECOND,
            ..Run::of(*text, "given 1\n")
        };
        answers(&rt, rt.alloc(), *name, &[run]);
    }
    let run = Run {
        text: b"insert 1 -\n\x80\nlen\n",
        reads: BY_BYTES,
        outcome: MALFORMED_SECOND,
        ..Run::of("", "given 1\n")
    };
    answers(&rt, rt.alloc(), "a byte of no text", &[run]);
}

/// A number may have zeros in front, and be the greatest.
#[test]
fn a_number_is_read_up_to_the_greatest(rt: HostRuntime) {
    let run = Run {
        reads: BY_BYTES,
        ..Run::of(
            "insert 18446744073709551615 -\nget 007\nget 001\n",
            "given 1\nnothing\nfound 18446744073709551615 -\n",
        )
    };
    answers(&rt, rt.alloc(), "numbers", &[run]);
}

/// A text that runs over a buffer whose writer takes so many writes; how it ends, what was written then,
/// and what a look-up of the first name is answered.
type Flush<'a> = (
    &'a str,
    Kind,
    &'a str,
    usize,
    Result<(), TextError>,
    &'a str,
    &'a str,
);

/// The writer below the buffer takes one write, or fails at the first.
#[test]
fn flushes_what_was_answered(rt: HostRuntime) {
    let rows: &[Flush<'_>] = &[
        (
            "a whole text",
            Kind::General,
            "insert 1 -\nget 1\n",
            1,
            Ok(()),
            "given 1\nfound 1 -\n",
            "found 1 -\n",
        ),
        (
            "a malformed line between",
            Kind::General,
            "insert 1 -\nwhat\nget 1\n",
            1,
            MALFORMED_SECOND,
            "given 1\n",
            "found 1 -\n",
        ),
        (
            "a malformed line alone",
            Kind::General,
            "what\n",
            1,
            MALFORMED_FIRST,
            "",
            "nothing\n",
        ),
        (
            "no write",
            Kind::General,
            "insert 1 -\nwhat\n",
            0,
            FAILED_WRITE,
            "",
            "found 1 -\n",
        ),
        (
            "a malformed line, strictly",
            Kind::Strict,
            "insert 1 -\nwhat\n",
            1,
            MALFORMED_SECOND,
            "given 1\n",
            "found 1 -\n",
        ),
        (
            "no write, strictly",
            Kind::Strict,
            "insert 1 -\nwhat\n",
            0,
            FAILED_WRITE,
            "",
            "found 1 -\n",
        ),
    ];
    for (name, kind, text, before, outcome, lines, found) in rows {
        let writes = Writes {
            most: usize::MAX,
            before: *before,
            failure: WriteFailure::Error(ErrorKind::Other),
        };
        let flushed = Run {
            writes,
            is_buffered: true,
            outcome: *outcome,
            ..Run::of(*text, *lines)
        };
        let runs = [flushed, Run::of("get 1\n", *found)];
        tries(&rt, rt.alloc(), *kind, &Asked::of(*name, &runs));
    }
}
