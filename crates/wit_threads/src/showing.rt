//! What the demonstration shows.

use std::io;
use std::io::Write;
use std::test::Fail;
use wit_demo::demo;
use wit_stream::{ReplayError, Summary};

const SHOWN: &str = "lock order reversal:
 1st \"B\" (B, sleep mutex) @ demo:3
 2nd \"A\" (A, sleep mutex) @ demo:4
established order:
 \"A\" -> \"B\" @ demo:2
calls 2408
orders 1
reports 1
";

/// Whether one report was told, and no bad line. To which status that comes is a case of `tests/`.
fn is_reported(outcome: &Result<Summary, ReplayError>) -> bool {
    match outcome {
        Ok(summary) => summary.reports == 1 && summary.bad.is_none(),
        Err(_) => false,
    }
}

#[test]
fn the_demonstration(rt: HostRuntime) -> Result<(), Fail> {
    let mut output = Vec::new(rt.alloc());
    let outcome = demo(&rt, rt.alloc(), &mut output);
    assert_eq!(rt; output.as_slice(), SHOWN.as_bytes());
    assert!(rt; is_reported(&outcome));
    Ok(())
}

/// Shows what is written only once it is flushed.
#[derive(Drop)]
struct Kept {
    written: Vec<u8>,
    seen: usize,
}

impl Write for Kept {
    fn write(&mut self, buf: &[u8]) -> io::Result<usize> {
        if self.written.extend_from_slice(buf).is_err() {
            return Ok(0);
        }
        Ok(buf.len())
    }

    fn flush(&mut self) -> io::Result<()> {
        self.seen = self.written.len();
        Ok(())
    }
}

#[test]
fn the_demonstration_is_flushed(rt: HostRuntime) -> Result<(), Fail> {
    let mut output = Kept {
        written: Vec::new(rt.alloc()),
        seen: 0,
    };
    let outcome = demo(&rt, rt.alloc(), &mut output);
    assert!(rt; is_reported(&outcome));
    assert_eq!(rt; output.written.as_slice(), SHOWN.as_bytes());
    assert_eq!(rt; output.seen, SHOWN.len());
    Ok(())
}
