//! The texts that no view of a trace shows: the locks of one seat, and the types.

use crate::verifiers::asked_and_held;
use std::alloc::Global;
use std::test::Fail;
use wit_core::Verifier;
use wit_model::{Fault, Reply, SeatNo};
use wit_report::{locks_of, report_text, type_list};

/// Whether the locks of a seat are told so.
fn holds(alloc: Global, verifier: &Verifier, seat: u16, text: &str) -> Result<bool, Fault> {
    let told = locks_of(alloc, verifier, SeatNo(seat))?;
    Ok(told.as_str() == text)
}

#[test]
fn one_seat(rt: HostRuntime) -> Result<(), Fail> {
    let alloc = rt.alloc();
    let verifier = asked_and_held(alloc)?;
    let held =
        "exclusive sleep mutex \"b\" (CDE) r = 0 @ long.c:2\nexclusive sleep mutex \"a\" (AB) r = 0 @ long.c:1\n";
    for (seat, text) in [(1, held), (2, ""), (3, "")] {
        assert!(rt; holds(alloc, &verifier, seat, text)?, "of seat {seat}");
    }
    Ok(())
}

#[test]
fn types_and_no_report(rt: HostRuntime) -> Result<(), Fail> {
    let alloc = rt.alloc();
    let verifier = asked_and_held(alloc)?;
    let types = type_list(alloc, &verifier)?;
    let expected = "1 \"AB\" sleep mutex locks 1\n2 \"CDE\" sleep mutex locks 1\n";
    assert_eq!(rt; types.as_str(), expected);
    let report = report_text(alloc, &verifier, &Reply::Recorded)?;
    assert_eq!(rt; report.as_str(), "");
    Ok(())
}
