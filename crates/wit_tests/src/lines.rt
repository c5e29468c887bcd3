//! Lines of each kind, read and printed again. What is no line, and which bytes and lengths there
//! may be, is told by the cases of `tests/`.

use std::alloc::{AllocError, Global};
use std::test::Fail;
use wit_grammar::{parse_line, print_line, spelled};
use wit_model::{FileName, Line, LockAssert, LockLine, LockNo, Mode, SeatNo};

/// Lines, and what they are read as.
const READ: &str =
    r#"witness-trace 1 seats 2 types 3 locks 4 chunks 5 = Header { version: One, seats: 2, types: 3, locks: 4, chunks: 5 }
order mtx "A" = Order { list: TypeList { types: [(SleepMutex, Name { text: "A" })] } }
order spin "B" rw " " = Order { list: TypeList { types: [(SpinMutex, Name { text: "B" }), (Rw, Name { text: " " })] } }
bless "A" "b c" = Bless { first: Name { text: "A" }, second: Name { text: "b c" } }
init 7 mtx - "a b" = Init { seat: SeatNo(7), lock: NewLock { class: SleepMutex, flags: LockFlags(0), name: Name { text: "a b" }, type_name: None } }
init 7 spin r "a" "b" = Init { seat: SeatNo(7), lock: NewLock { class: SpinMutex, flags: LockFlags(1), name: Name { text: "a" }, type_name: Some(Name { text: "b" }) } }
init 65535 rw d "a" = Init { seat: SeatNo(65535), lock: NewLock { class: Rw, flags: LockFlags(2), name: Name { text: "a" }, type_name: None } }
init 0 sx rd "a" "a" = Init { seat: SeatNo(0), lock: NewLock { class: Sx, flags: LockFlags(3), name: Name { text: "a" }, type_name: Some(Name { text: "a" }) } }
check 7 8 x - a.c:9 = OnLock(Check { seat: SeatNo(7), lock: LockNo(8), mode: Exclusive, ops: OpFlags(0), file: FileName { text: "a.c" }, line: 9 })
check 7 8 s n a.c:9 = OnLock(Check { seat: SeatNo(7), lock: LockNo(8), mode: Shared, ops: OpFlags(1), file: FileName { text: "a.c" }, line: 9 })
check 7 8 s d a:b:9 = OnLock(Check { seat: SeatNo(7), lock: LockNo(8), mode: Shared, ops: OpFlags(2), file: FileName { text: "a:b" }, line: 9 })
check 7 8 s f ::4294967295 = OnLock(Check { seat: SeatNo(7), lock: LockNo(8), mode: Shared, ops: OpFlags(4), file: FileName { text: ":" }, line: 4294967295 })
check 7 8 s ndf a.c:1:9 = OnLock(Check { seat: SeatNo(7), lock: LockNo(8), mode: Shared, ops: OpFlags(7), file: FileName { text: "a.c:1" }, line: 9 })
lock 1 2 = OnLock(Plain { verb: Note, seat: SeatNo(1), lock: LockNo(2) })
unlock 1 2 s = OnLock(Unlock { seat: SeatNo(1), lock: LockNo(2), mode: Shared })
unlock 1 2 x = OnLock(Unlock { seat: SeatNo(1), lock: LockNo(2), mode: Exclusive })
try 7 8 x a.c:9 = OnLock(Try { seat: SeatNo(7), lock: LockNo(8), mode: Exclusive, file: FileName { text: "a.c" }, line: 9 })
try 7 8 s a:b:0 = OnLock(Try { seat: SeatNo(7), lock: LockNo(8), mode: Shared, file: FileName { text: "a:b" }, line: 0 })
giveup 1 2 = OnLock(Plain { verb: GiveUp, seat: SeatNo(1), lock: LockNo(2) })
watch 7 1 = Watch { seat: SeatNo(7), watch: On }
watch 7 0 = Watch { seat: SeatNo(7), watch: Quiet }
watch 7 -1 = Watch { seat: SeatNo(7), watch: Off }
destroy 1 2 = OnLock(Plain { verb: Destroy, seat: SeatNo(1), lock: LockNo(2) })
upgrade 1 2 = OnLock(Plain { verb: Upgrade, seat: SeatNo(1), lock: LockNo(2) })
downgrade 1 2 = OnLock(Plain { verb: Downgrade, seat: SeatNo(1), lock: LockNo(2) })
norelease 1 2 = OnLock(Plain { verb: NoRelease, seat: SeatNo(1), lock: LockNo(2) })
releaseok 1 2 = OnLock(Plain { verb: ReleaseOk, seat: SeatNo(1), lock: LockNo(2) })
assert 1 2 - = Assert { seat: SeatNo(1), lock: LockNo(2), asserted: LockAssert(0) }
assert 1 2 u = Assert { seat: SeatNo(1), lock: LockNo(2), asserted: LockAssert(1) }
assert 1 2 l = Assert { seat: SeatNo(1), lock: LockNo(2), asserted: LockAssert(2) }
assert 1 2 s = Assert { seat: SeatNo(1), lock: LockNo(2), asserted: LockAssert(4) }
assert 1 2 x = Assert { seat: SeatNo(1), lock: LockNo(2), asserted: LockAssert(8) }
assert 1 2 r = Assert { seat: SeatNo(1), lock: LockNo(2), asserted: LockAssert(16) }
assert 1 2 n = Assert { seat: SeatNo(1), lock: LockNo(2), asserted: LockAssert(32) }
warn 1 0 - = Warn { seat: SeatNo(1), lock: None, flags: WarnFlags(0) }
warn 1 2 g = Warn { seat: SeatNo(1), lock: Some(LockNo(2)), flags: WarnFlags(1) }
warn 1 2 s = Warn { seat: SeatNo(1), lock: Some(LockNo(2)), flags: WarnFlags(2) }
define 1 2 3 = Define { seat: SeatNo(1), first: LockNo(2), second: LockNo(3) }"#;

/// Whether a line is printed as these bytes.
fn is_printed(alloc: Global, line: &Line, bytes: &[u8]) -> bool {
    if !spelled(line) {
        return false;
    }
    match print_line(alloc, line) {
        Ok(printed) => printed.as_slice() == bytes,
        Err(_) => false,
    }
}

/// Whether bytes are read as what stands beside them, and printed as they were.
fn is_read(alloc: Global, bytes: &[u8], fields: &str) -> Result<bool, AllocError> {
    match parse_line(alloc, bytes) {
        Ok(line) => {
            let text = format!(in alloc; "{line:?}")?;
            Ok(text.as_str() == fields && is_printed(alloc, &line, bytes))
        }
        Err(_) => Ok(false),
    }
}

#[test]
fn lines_of_each_kind(rt: HostRuntime) -> Result<(), Fail> {
    for row in READ.split('\n') {
        let (text, fields) = row.split_once(" = ").ok_or("fields")?;
        assert!(rt; is_read(rt.alloc(), text.as_bytes(), fields)?, "at {row}");
    }
    Ok(())
}

/// A list of 340 types, 11 bytes below the length of the longest line.
fn long_list(alloc: Global) -> Result<Vec<u8>, AllocError> {
    let mut bytes = Vec::from_slice(alloc, b"order")?;
    for _ in 0..340 {
        bytes.extend_from_slice(b" mtx \"abcde\"")?;
    }
    Ok(bytes)
}

#[test]
fn long_line(rt: HostRuntime) -> Result<(), Fail> {
    let bytes = long_list(rt.alloc())?;
    let line = parse_line(rt.alloc(), &bytes).ok().ok_or("line")?;
    assert!(rt; is_printed(rt.alloc(), &line, &bytes));
    Ok(())
}

fn is_spelled(file: FileName) -> bool {
    spelled(&Line::OnLock(LockLine::Try {
        seat: SeatNo(7),
        lock: LockNo(8),
        mode: Mode::Shared,
        file,
        line: 9,
    }))
}

fn is_assertion_spelled(flags: u8) -> bool {
    spelled(&Line::Assert {
        seat: SeatNo(7),
        lock: LockNo(8),
        asserted: LockAssert(flags),
    })
}

#[test]
fn lines_that_no_bytes_spell(rt: HostRuntime) -> Result<(), Fail> {
    for (file, want) in [("a.c", true), ("", false), ("a b", false), ("é", false)] {
        let name = FileName::new(rt.alloc(), file)?;
        assert_eq!(rt; is_spelled(name), want, "at {file}");
    }
    for (flags, want) in [(0, true), (63, true), (64, false), (255, false)] {
        assert_eq!(rt; is_assertion_spelled(flags), want, "at {flags}");
    }
    Ok(())
}
