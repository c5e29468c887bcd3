//! Names that a table refuses, and a table that is full.

use std::test::Fail;
use wit_model::{Class, Fault, FileNo, TypeNo};
use wit_table::Table;

fn enroll(table: &mut Table, name: &str) -> Result<TypeNo, Fault> {
    table.enroll(name, Class::Sx)
}

fn file(table: &mut Table, name: &str) -> Result<FileNo, Fault> {
    table.file(name)
}

/// Whether the table answers so where it is to bless a pair.
fn is_answer(table: &mut Table, first: &str, second: &str, answer: Result<(), Fault>) -> bool {
    table.bless(first, second) == answer
}

fn is_blessed(table: &Table, first: &str, second: &str) -> bool {
    table.blessed(first, second)
}

#[test]
fn names_of_types(rt: HostRuntime) -> Result<(), Fail> {
    let mut table = Table::new(rt.alloc(), 2, 1)?;
    for (name, answer) in [
        ("", Err(Fault::BadName)),
        ("A", Ok(TypeNo(1))),
        ("B", Ok(TypeNo(2))),
        ("C", Err(Fault::TypesFull)),
        ("A", Ok(TypeNo(1))),
    ] {
        assert_eq!(rt; enroll(&mut table, name), answer, "of {name}");
    }
    Ok(())
}

#[test]
fn names_of_pairs(rt: HostRuntime) -> Result<(), Fail> {
    let mut table = Table::new(rt.alloc(), 1, 1)?;
    for (first, second, answer, blessed) in [
        ("A", "\"", Err(Fault::BadName), false),
        ("A", "C", Ok(()), true),
    ] {
        assert!(rt; is_answer(&mut table, first, second, answer));
        assert!(rt; is_blessed(&table, second, first) == blessed);
    }
    Ok(())
}

#[test]
fn names_of_files(rt: HostRuntime) -> Result<(), Fail> {
    let mut table = Table::new(rt.alloc(), 1, 2)?;
    for (name, answer, recent) in [
        ("a b", Err(Fault::BadName), None),
        ("f.c", Ok(FileNo(1)), Some((FileNo(1), "f.c"))),
        ("g.c", Ok(FileNo(2)), Some((FileNo(2), "g.c"))),
        ("h.c", Err(Fault::FilesFull), Some((FileNo(2), "g.c"))),
        ("f.c", Ok(FileNo(1)), Some((FileNo(1), "f.c"))),
    ] {
        assert_eq!(rt; file(&mut table, name), answer, "of {name}");
        assert_eq!(rt; table.recent_file(), recent, "after {name}");
    }
    Ok(())
}
