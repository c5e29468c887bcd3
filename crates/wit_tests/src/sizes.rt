//! What a run of many steps shows: memory that comes back, and a long trace that is shown at once.

use crate::traces::{HEADER, replayed};
use std::alloc::{AllocError, Global};
use std::test::Fail;
use wit_core::Verifier;
use wit_model::{Class, Limits, LockFlags, SeatNo};
use wit_trace::View;

/// Makes a verifier of some megabytes and a lock in it, and drops them. Whether it took a lock.
fn is_made(alloc: Global, limits: Limits) -> Result<bool, Fail> {
    let made = Verifier::new(alloc, limits, Vec::new(alloc), Vec::new(alloc));
    let mut verifier = made.ok().ok_or("no verifier")?;
    let flags = LockFlags(0);
    let lock = verifier.init(SeatNo(1), "a", None, Class::SleepMutex, flags);
    Ok(lock.is_ok())
}

/// Verifiers that are dropped give back what they took: together they take more than any machine
/// has.
#[test]
fn verifiers_made_and_dropped(rt: HostRuntime) -> Result<(), Fail> {
    let limits = Limits::new(256, 1023, 1024, 16384, 64).ok_or("limits")?;
    for _ in 0..10_000 {
        assert!(rt; is_made(rt.alloc(), limits)?);
    }
    Ok(())
}

/// A hundred thousand bytes in which a lock that is held is said to be held, again and again, and
/// once that it isn't.
fn assertions(alloc: Global) -> Result<String, AllocError> {
    let mut trace = String::from_str(alloc, HEADER)?;
    trace.push_str("init 1 mtx - \"a\"\ncheck 1 1 x n f:1\nlock 1 1\n")?;
    for _ in 0..8_000 {
        trace.push_str("assert 1 1 x\n")?;
    }
    trace.push_str("assert 1 1 u\n")?;
    Ok(trace)
}

/// A reader may show any number of bytes at once.
#[test]
fn shown_at_once(rt: HostRuntime) -> Result<(), Fail> {
    let alloc = rt.alloc();
    let trace = assertions(alloc)?;
    assert!(rt; trace.len() > 100_000);
    let mut input = trace.as_bytes();
    let mut written = Vec::new(alloc);
    let outcome = replayed(alloc, &mut input, &mut written, View::Reports);
    let told = outcome.ok().map(|s| (s.calls, s.reports, s.bad));
    assert_eq!(rt; told, Some((3, 1, None)));
    assert_eq!(rt;
        String::from_utf8(written).ok().as_deref(),
        Some("assert \"a\": locked\n")
    );
    Ok(())
}
