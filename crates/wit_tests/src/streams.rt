//! Replays of streams of which few bytes, or thousands, are shown and taken at a time.

use crate::fakes::{Drip, Funnel};
use crate::traces::{HEADER, replayed, replayed_through};
use std::alloc::{AllocError, Global};
use std::test::Fail;
use wit_model::Cause;
use wit_trace::View;

/// What is taken of a stream, what is left of it, the output, and the bad line.
type Stream = (
    &'static str,
    &'static str,
    &'static str,
    Option<(u64, Cause)>,
);

const STREAMS: [Stream; 7] = [
    ("", "", "line 1: cut\n", Some((1, Cause::Cut))),
    ("\n", "", "line 1: syntax\n", Some((1, Cause::Syntax))),
    ("a\n", "b\n", "line 1: syntax\n", Some((1, Cause::Syntax))),
    ("a", "", "line 1: cut\n", Some((1, Cause::Cut))),
    (HEADER, "", "", None),
    (
        "witness-trace 1 seats 2 types 8 locks 16 chunks 4\nwatch 1 0\nstop\n",
        "watch 1 1\n",
        "line 3: syntax\n",
        Some((3, Cause::Syntax)),
    ),
    (
        "witness-trace 1 seats 2 types 8 locks 16 chunks 4\nwatch 1 0\nwatch",
        "",
        "line 3: cut\n",
        Some((3, Cause::Cut)),
    ),
];

fn stream_agrees(alloc: Global, stream: &Stream) -> Result<bool, AllocError> {
    let (taken, left, text, bad) = *stream;
    let bytes = format!(in alloc; "{taken}{left}")?;
    let mut input = bytes.as_bytes();
    let mut output = Vec::new(alloc);
    Ok(
        match replayed(alloc, &mut input, &mut output, View::Reports) {
            Ok(summary) => {
                summary.bad == bad
                    && output.as_slice() == text.as_bytes()
                    && input == left.as_bytes()
            }
            Err(_) => false,
        },
    )
}

/// No line behind the one that ends it is read.
#[test]
fn reads_memory(rt: HostRuntime) -> Result<(), Fail> {
    for stream in &STREAMS {
        assert!(rt;
            stream_agrees(rt.alloc(), stream)?,
            "{} bytes",
            stream.0.len()
        );
    }
    Ok(())
}

/// A letter and a number, and behind them so many `x` that the word has `len` bytes.
fn word(alloc: Global, letter: char, number: u16, len: usize) -> Result<String, AllocError> {
    let width = len.saturating_sub(1);
    format!(in alloc; "{letter}{number:x<width$}")
}

/// Room for a list as long as a line can be, and for twenty locks.
const WIDE: &str = "witness-trace 1 seats 1 types 128 locks 20 chunks 4\n";

/// A list that is a line of so many bytes, from 4,073 up. Its first 58 names have 63 bytes, the
/// last one what is left.
fn long_list(alloc: Global, letter: char, len: usize) -> Result<String, AllocError> {
    let mut line = String::from_str(alloc, "order")?;
    for number in 0..58 {
        let name = word(alloc, letter, number, 63)?;
        let entry = format!(in alloc; " mtx \"{name}\"")?;
        line.push_str(&entry)?;
    }
    // 7 bytes stand around a name.
    let left = len.saturating_sub(line.len()).saturating_sub(7);
    let name = word(alloc, letter, 58, left)?;
    format!(in alloc; "{line} mtx \"{name}\"")
}

/// Whether a stream that moves so many bytes at a time ends at this bad line, with so many bytes
/// left.
fn ends_at(
    alloc: Global,
    input: &[u8],
    step: usize,
    bad: Option<(u64, Cause)>,
    left: usize,
) -> bool {
    let mut reader = Drip::new(input, step);
    let mut writer = Funnel::new(alloc, step);
    match replayed(alloc, &mut reader, &mut writer, View::Reports) {
        Ok(summary) => summary.bad == bad && reader.rest.len() == left,
        Err(_) => false,
    }
}

/// Of a line that is too long its first 4,097 bytes are taken.
#[test]
fn long_lines(rt: HostRuntime) -> Result<(), Fail> {
    let alloc = rt.alloc();
    for (len, end, bad, left) in [
        (4096, "\n", None, 0),
        (4096, "", Some((2, Cause::Cut)), 0),
        (4097, "\n", Some((2, Cause::Long)), 1),
        (4097, "", Some((2, Cause::Long)), 0),
        (9000, "\nb\n", Some((2, Cause::Long)), 4906),
    ] {
        let list = long_list(alloc, 't', len)?;
        let input = format!(in alloc; "{WIDE}{list}{end}")?;
        for step in [1, 4095, 4096, 4097, 4098, 4099, 10000] {
            let is_right = ends_at(alloc, input.as_bytes(), step, bad, left);
            assert!(rt; is_right, "{len} bytes, {step} at a time");
        }
    }
    Ok(())
}

/// Seat 1 makes a lock and takes it, with names as long as they can be.
fn put_held(trace: &mut String, alloc: Global, lock: u16) -> Result<(), AllocError> {
    let name = word(alloc, 'l', lock, 63)?;
    let of_type = word(alloc, 't', lock, 63)?;
    let file = word(alloc, 'f', lock, 255)?;
    let made = format!(in alloc; "init 1 mtx d \"{name}\" \"{of_type}\"\n")?;
    trace.push_str(&made)?;
    let taken = format!(in alloc; "check 1 {lock} x n {file}:{lock}\nlock 1 {lock}\n")?;
    trace.push_str(&taken)
}

/// More than 8,193 bytes, of which as many are written: a seat that takes twenty locks with names
/// as long as they can be, and is warned of them. At the end stands a line of every byte but a line
/// feed, 16 times over.
fn long_trace(alloc: Global) -> Result<Vec<u8>, AllocError> {
    let mut trace = String::from_str(alloc, WIDE)?;
    for lock in 1..21 {
        put_held(&mut trace, alloc, lock)?;
    }
    trace.push_str("warn 1 0 -\n")?;
    let mut bytes = trace.into_bytes();
    for _ in 0..16 {
        for byte in 0..=255 {
            if byte != b'\n' {
                bytes.push(byte)?;
            }
        }
    }
    bytes.push(b'\n')?;
    Ok(bytes)
}

/// Whether a replay of these bytes comes to their last line, and writes more than 8,193 bytes.
fn is_long(alloc: Global, bytes: &[u8]) -> bool {
    let mut input = bytes;
    let mut output = Vec::new(alloc);
    match replayed(alloc, &mut input, &mut output, View::Reports) {
        Ok(summary) => summary.bad == Some((63, Cause::Syntax)) && output.len() > 8193,
        Err(_) => false,
    }
}

/// Whether a replay of these bytes, shown and taken so many at a time, leaves evidence of a
/// failure.
fn blames(alloc: Global, bytes: &[u8], step: usize) -> bool {
    let mut reader = Drip::new(bytes, step);
    let mut writer = Funnel::new(alloc, step);
    !replayed_through(alloc, &mut reader, &mut writer, View::Reports).is_sound()
}

/// No byte, no length of what is shown or taken, and no end is a failure.
#[test]
fn no_evidence_without_failure(rt: HostRuntime) -> Result<(), Fail> {
    let alloc = rt.alloc();
    let bytes = long_trace(alloc)?;
    assert!(rt; is_long(alloc, &bytes));
    for step in 1..8194 {
        assert!(rt; !blames(alloc, &bytes, step), "{step} at a time");
        let front = &bytes[..step.min(bytes.len())];
        assert!(rt; !blames(alloc, front, step), "{step} at once");
    }
    for byte in 0..=255 {
        assert!(rt; !blames(alloc, &[byte], 1), "byte {byte}");
    }
    Ok(())
}
