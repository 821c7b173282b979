ghost use Rattle.std.specs.Prelude.{◌≤◌, IfOk};

use super::*;
use std::alloc::Global;
use std::cell::Cell;
use std::io::{self, ErrorKind, Read, Write};
use std::test::Fail;

/// Whether a read with so much room, of at most 8 bytes, gives this text, or fails where none is
/// wanted.
fn gives<S: Source>(source: &mut S, room: usize, want: Option<&str>) -> bool {
    let mut buffer = [0; 8];
    match (source.read(&mut buffer[..room.min(8)]), want) {
        (Ok(count), Some(text)) => &buffer[..count] == text.as_bytes(),
        (Err(Failed), None) => true,
        _ => false,
    }
}

#[test]
fn bytes_give_what_fits_and_fail_by_number(rt: HostRuntime) -> Result<(), Fail> {
    let mut source = Bytes::new(rt.alloc(), b"abcdefg", &[2, 5])?;
    let reads = [
        (3, Some("abc")),
        (3, None),
        (0, Some("")),
        (2, Some("de")),
        (8, None),
        (8, Some("fg")),
        (8, Some("")),
    ];
    for (room, want) in reads {
        assert!(rt;
            gives(&mut source, room, want),
            "with room for {room}, {want:?}"
        );
    }
    Ok(())
}

#[test]
fn a_page_takes_what_has_room_and_fails_by_number(rt: HostRuntime) -> Result<(), Fail> {
    let mut page = Page::new(rt.alloc(), 6, 4, &[2])?;
    let writes = [
        ("abcdef", Ok(4), "abcd"),
        ("ef", Err(Failed), "abcd"),
        ("", Ok(0), "abcd"),
        ("e", Ok(1), "abcde"),
        ("fgh", Ok(1), "abcdef"),
        ("gh", Err(Failed), "abcdef"),
        ("", Err(Failed), "abcdef"),
    ];
    for (piece, want, taken) in writes {
        assert_eq!(rt; page.write(piece.as_bytes()), want, "at {piece:?}");
        assert_eq!(rt; page.taken(), taken.as_bytes(), "after {piece:?}");
    }
    Ok(())
}

#[test]
fn a_text_is_written_up_to_the_failing_write(rt: HostRuntime) -> Result<(), Fail> {
    let runs = [
        (8, 0, "abc", true),
        (8, 1, "", false),
        (8, 2, "a", false),
        (8, 3, "ab", false),
        (8, 4, "abc", true),
        (3, 0, "abc", true),
        (2, 0, "ab", false),
        (0, 0, "", false),
    ];
    for (room, fails, taken, whole) in runs {
        let mut page = Page::new(rt.alloc(), room, 1, &[fails])?;
        assert_eq!(rt;
            write_all(&mut page, b"abc").is_ok(),
            whole,
            "room {room}, failing {fails}"
        );
        assert_eq!(rt;
            page.taken(),
            taken.as_bytes(),
            "room {room}, failing {fails}"
        );
    }
    let mut tally = Tally::new();
    for text in ["abc", "", "de"] {
        write_all(&mut tally, text.as_bytes())
            .ok()
            .ok_or("a tally never fails")?;
    }
    assert_eq!(rt; tally.count(), 5);
    assert_eq!(rt; Tally::default().count(), 0);
    Ok(())
}

/// What was read of a source, as a word and the bytes.
fn parts(alloc: Global, read: ReadAll) -> (&'static str, Vec<u8>) {
    match read {
        ReadAll::All(bytes) => ("all", bytes.into_vec()),
        ReadAll::TooLong(bytes) => ("long", bytes.into_vec()),
        ReadAll::Failed => ("failed", Vec::new(alloc)),
        ReadAll::Memory => ("memory", Vec::new(alloc)),
    }
}

#[test]
fn an_input_is_read_to_its_end_or_its_limit(rt: HostRuntime) -> Result<(), Fail> {
    let runs: [(u32, u32, &str, &str); 9] = [
        (0, 7, "all", "abcdef"),
        (0, 6, "all", "abcdef"),
        (0, 5, "long", "abcdef"),
        (0, 4, "long", "abcde"),
        (0, 0, "long", "a"),
        (1, 6, "failed", ""),
        (2, 6, "failed", ""),
        (2, 5, "long", "abcdef"),
        (3, 6, "all", "abcdef"),
    ];
    for (fails, limit, word, text) in runs {
        let mut source = Bytes::new(rt.alloc(), b"abcdef", &[fails])?;
        let read = parts(
            rt.alloc(),
            read_all(rt.alloc(), &mut source, limit as usize),
        );
        assert_eq!(rt; read.0, word, "failing {fails}, limit {limit}");
        assert_eq!(rt;
            read.1.as_slice(),
            text.as_bytes(),
            "failing {fails}, limit {limit}"
        );
    }
    Ok(())
}

#[test]
fn an_input_of_several_blocks_is_read_whole(rt: HostRuntime) -> Result<(), Fail> {
    let mut input = Vec::new(rt.alloc());
    for place in 0..200_000u32 {
        input.push((place % 251) as u8)?;
    }
    for (limit, word, len) in [
        (200_000u32, "all", 200_000),
        (199_999, "long", 200_000),
        (70_000, "long", 70_001),
    ] {
        let mut source = PlainBytes::new(rt.alloc(), &input)?;
        let read = parts(
            rt.alloc(),
            read_all(rt.alloc(), &mut source, limit as usize),
        );
        assert_eq!(rt; read.0, word, "limit {limit}");
        assert_eq!(rt;
            Some(read.1.as_slice()),
            input.as_slice().get(..len),
            "limit {limit}"
        );
    }
    Ok(())
}

/// A reader and writer that is interrupted, moves a byte, and then takes nothing and fails.
#[derive(Drop)]
struct Faltering {
    calls: u32,
}

impl Faltering {
    fn falter(&mut self, len: usize) -> io::Result<usize>
        ensures { IfOk result (λ count. count ≤ len) }
    {
        self.calls = self.calls.saturating_add(1);
        match self.calls {
            1 | 3 => Err(ErrorKind::Interrupted.into()),
            2 | 4 => Ok(len.min(1)),
            5 => Ok(0),
            _ => Err(ErrorKind::Other.into()),
        }
    }
}

impl Read for Faltering {
    fn read(&mut self, into: &mut [u8]) -> io::Result<usize> {
        self.falter(into.len())
    }
}

impl Write for Faltering {
    fn write(&mut self, piece: &[u8]) -> io::Result<usize> {
        self.falter(piece.len())
    }

    fn flush(&mut self) -> io::Result<()> {
        Ok(())
    }
}

#[test]
fn std_streams_are_tried_again_after_an_interruption(rt: HostRuntime) {
    let mut buffer = [0; 4];
    let mut reading = Reading::new(Faltering { calls: 0 });
    for want in [Ok(1), Ok(1), Ok(0), Err(Failed)] {
        assert_eq!(rt; reading.read(&mut buffer), want);
    }
    let mut writing = Writing::new(Faltering { calls: 0 });
    for want in [Ok(1), Ok(1), Err(Failed), Err(Failed)] {
        assert_eq!(rt; writing.write(b"abc"), want);
    }
}

/// A gate that counts who passes.
#[derive(Drop)]
struct Counting {
    passed: Cell<u32>,
}

impl Gate for Counting {
    fn pass(&self, _session: u32, _label: Label) {
        self.passed.set(self.passed.get().saturating_add(1));
    }
}

fn pass_twice<G: Gate>(gate: &G) {
    gate.pass(0, Label::Snapped);
    gate.pass(1, Label::Acted);
}

/// A gate that threads may share.
fn shared<G: Gate + Sync>(gate: &G) {
    pass_twice(gate);
}

#[test]
fn gates_are_passed(rt: HostRuntime) {
    let gate = Counting {
        passed: Cell::new(0),
    };
    pass_twice(&gate);
    assert_eq!(rt; gate.passed.get(), 2);
    shared(&NoGate);
}
