use crate::front::replay_top;
use crate::status::Status;
use pg_outside::{Bytes, Page, PlainBytes, Source};
use std::alloc::{AllocError, Global};
use std::process::Abort;
use std::test::Fail;

const SCRIPT: &[u8] =
    b"rc 1 stepped\nsetup: CREATE TABLE t (k integer, v integer)\na: INSERT INTO t VALUES (1, 10)\n";

const TEXT: &[u8] = b"a: INSERT 0 1\ntable t\n1|10\n";

const TRACE: &[u8] =
    b"a snapped 0\na found 1\na placed t 1\na inserted t 1\na committed\na replied INSERT 0 1\na closed\n";

/// What a call comes to: its status, the bytes that the sink has taken, what is said of it, and how
/// many entries the journal has.
type Ending<'a> = (Status, &'a [u8], &'a [u8], usize);

/// The words of a command line: these, which are cut at spaces.
fn words_of(alloc: Global, line: &str) -> Result<Vec<String>, AllocError> {
    let mut words = Vec::new(alloc);
    for word in line.split_whitespace() {
        words.push(String::from_str(alloc, word)?)?;
    }
    Ok(words)
}

/// Carries out a command line and compares what it comes to.
fn compare<S: Source>(
    rt: &(impl AllocGlobal + Abort),
    line: &str,
    source: &mut S,
    sink: &mut Page,
    want: Ending<'_>,
) -> Result<(), Fail> {
    let (status, taken, said, entries) = want;
    let alloc = rt.alloc();
    let words = words_of(alloc, line)?;
    let mut errors = Page::new(alloc, 1000, 1000, &[])?;
    let report = replay_top(alloc, words.as_slice(), source, sink, &mut errors);
    assert_eq!(rt; report.status, status);
    assert_eq!(rt; sink.taken(), taken);
    assert_eq!(rt; errors.taken(), said);
    assert_eq!(rt; report.journal.len(), entries);
    Ok(())
}

#[test]
fn a_sink_that_fails_has_taken_a_front(rt: HostRuntime) -> Result<(), Fail> {
    let alloc = rt.alloc();
    for call in 1..=28u32 {
        let mut source = PlainBytes::new(alloc, SCRIPT)?;
        let mut sink = Page::new(alloc, 1000, 1, &[call])?;
        let want: Ending<'_> = if call <= 27 {
            let taken = &TEXT[..call as usize - 1];
            (Status::WriteFault, taken, b"write failed\n", 7)
        } else {
            (Status::Done, TEXT, b"", 7)
        };
        compare(&rt, "replay", &mut source, &mut sink, want)?;
    }
    let mut source = PlainBytes::new(alloc, SCRIPT)?;
    let mut sink = Page::new(alloc, 1000, 4, &[2])?;
    let want: Ending<'_> = (Status::WriteFault, b"a: I", b"write failed\n", 7);
    compare(&rt, "replay", &mut source, &mut sink, want)
}

#[test]
fn a_source_that_fails_is_not_run(rt: HostRuntime) -> Result<(), Fail> {
    let alloc = rt.alloc();
    let failed: Ending<'_> = (Status::ReadFault, b"", b"read failed\n", 0);
    let done: Ending<'_> = (Status::Done, TEXT, b"", 7);
    // the first read gives the script, the second its end, and there is no third
    for (call, want) in [(1, failed), (2, failed), (3, done)] {
        let mut source = Bytes::new(alloc, SCRIPT, &[call])?;
        let mut sink = Page::new(alloc, 1000, 1000, &[])?;
        compare(&rt, "replay", &mut source, &mut sink, want)?;
    }
    Ok(())
}

#[test]
fn each_call_ends_as_its_words_and_input_say(rt: HostRuntime) -> Result<(), Fail> {
    let alloc = rt.alloc();
    let usage: Ending<'_> = (Status::Usage, b"", b"usage: pgrc replay, trace\n", 0);
    let cases: [(&str, &[u8], Ending<'_>); 5] = [
        ("replay", SCRIPT, (Status::Done, TEXT, b"", 7)),
        ("trace", SCRIPT, (Status::Done, TRACE, b"", 7)),
        ("", SCRIPT, usage),
        ("run", SCRIPT, usage),
        ("replay trace", SCRIPT, usage),
    ];
    for (line, script, want) in cases {
        let mut source = PlainBytes::new(alloc, script)?;
        let mut sink = Page::new(alloc, 1000, 1000, &[])?;
        compare(&rt, line, &mut source, &mut sink, want)?;
    }
    Ok(())
}

#[test]
fn each_refusal_names_its_line(rt: HostRuntime) -> Result<(), Fail> {
    let alloc = rt.alloc();
    let cases: [(&[u8], &[u8]); 5] = [
        (b"", b"line 1: header\n"),
        (b"rc 1 free\n", b"line 1: free\n"),
        (
            b"rc 1 stepped\na: SELECT FROM t\n",
            b"line 2: syntax at 11\n",
        ),
        (
            b"rc 1 stepped\nsetup: INSERT INTO t VALUES (1)\n",
            b"line 2: 42P01 relation \"t\" does not exist\n",
        ),
        (
            b"rc 1 stepped\nsetup: CREATE TABLE t (k integer)\nsetup: INSERT INTO t VALUES (1 / 0)\n",
            b"line 3: 22012 division by zero\n",
        ),
    ];
    for (script, said) in cases {
        for line in ["replay", "trace"] {
            let mut source = PlainBytes::new(alloc, script)?;
            let mut sink = Page::new(alloc, 1000, 1000, &[])?;
            compare(
                &rt,
                line,
                &mut source,
                &mut sink,
                (Status::Refused, b"", said, 0),
            )?;
        }
    }
    Ok(())
}
