//! Matrices step by step, of sizes about a word's end, and the greatest one.

ghost use Rattle.wit_model.specs.Rules.Numbers.{IsNumber};

use MatrixStep::{Adopt, Cell, Find, NoPath, Path};
use std::alloc::Global;
use std::test::Fail;
use wit_matrix::Matrix;
use wit_model::{Fault, TypeNo};

/// What is done to a matrix, or what it is to say.
#[derive(Clone, Copy)]
enum MatrixStep {
    Adopt(u16, u16),
    Find(u16, u16),
    /// A cell, read from the first type to the second.
    Cell(u16, u16, u8),
    /// The path from the first of these types to the last.
    Path([TypeNo; 4]),
    /// Nothing leads from the first type to the second.
    NoPath(u16, u16),
}

const WAY: [TypeNo; 4] = [TypeNo(1), TypeNo(2), TypeNo(3), TypeNo(4)];

/// Four types in a chain of orders, one order that goes past a type, and reversals.
const CHAIN: [MatrixStep; 32] = [
    Adopt(1, 2),
    Adopt(3, 4),
    Adopt(2, 3),
    Cell(1, 1, 0x00),
    Cell(1, 2, 0x03),
    Cell(1, 3, 0x02),
    Cell(1, 4, 0x02),
    Cell(2, 1, 0x0c),
    Cell(2, 2, 0x00),
    Cell(2, 3, 0x03),
    Cell(2, 4, 0x02),
    Cell(3, 1, 0x08),
    Cell(3, 2, 0x0c),
    Cell(3, 3, 0x00),
    Cell(3, 4, 0x03),
    Cell(4, 1, 0x08),
    Cell(4, 2, 0x08),
    Cell(4, 3, 0x0c),
    Cell(4, 4, 0x00),
    Path(WAY),
    NoPath(4, 1),
    Adopt(1, 3),
    Cell(1, 3, 0x03),
    Cell(3, 1, 0x0c),
    Path(WAY),
    Find(2, 2),
    Cell(2, 2, 0x10),
    Find(4, 1),
    Adopt(1, 4),
    Cell(1, 4, 0x13),
    Cell(4, 1, 0x1c),
    NoPath(4, 1),
];

/// Orders by which a row's first word leads to its last.
const LAST_WORD: [MatrixStep; 4] = [
    Adopt(64, 65),
    Adopt(63, 64),
    Cell(63, 65, 0x02),
    Cell(65, 63, 0x08),
];

/// Orders from the first of 1,023 types to the last.
const GREATEST: [MatrixStep; 4] = [
    Adopt(1022, 1023),
    Adopt(1, 1022),
    Cell(1, 1023, 0x02),
    Cell(1023, 1, 0x08),
];

/// The type of this number, or the first where the matrix has none of that number.
fn type_of(matrix: &Matrix, number: u16) -> TypeNo
    ensures { IsNumber matrix.now.size result.0 }
{
    if 1 <= number && number <= matrix.size() {
        TypeNo(number)
    } else {
        let _positive = matrix.size();
        TypeNo(1)
    }
}

/// Adopts an order; false where it may not be adopted.
fn adopt(matrix: &mut Matrix, parent: u16, child: u16) -> bool {
    let parent = type_of(matrix, parent);
    let child = type_of(matrix, child);
    if parent.0 == child.0 || matrix.before(child, parent) {
        return false;
    }
    matrix.adopt(parent, child);
    true
}

/// Finds a pair in violation; whether both its orders say so.
fn find(matrix: &mut Matrix, a: u16, b: u16) -> bool {
    let a = type_of(matrix, a);
    let b = type_of(matrix, b);
    matrix.set_reversal(a, b);
    reversed(matrix, a, b) && reversed(matrix, b, a)
}

fn reversed(matrix: &Matrix, a: TypeNo, b: TypeNo) -> bool {
    matrix.reversed(type_of(matrix, a.0), type_of(matrix, b.0))
}

fn cell(matrix: &Matrix, a: u16, b: u16) -> u8 {
    matrix.cell(type_of(matrix, a), type_of(matrix, b))
}

fn path(matrix: &Matrix, a: u16, b: u16) -> Result<Option<Vec<TypeNo>>, Fault> {
    matrix.path(type_of(matrix, a), type_of(matrix, b))
}

/// Takes one step; whether it could be taken, and the matrix says so.
fn take(matrix: &mut Matrix, step: MatrixStep) -> Result<bool, Fault> {
    match step {
        Adopt(a, b) => Ok(adopt(matrix, a, b)),
        Find(a, b) => Ok(find(matrix, a, b)),
        Cell(a, b, expected) => Ok(cell(matrix, a, b) == expected),
        Path(way) => match path(matrix, way[0].0, way[3].0)? {
            Some(told) => Ok(told.as_slice() == way.as_slice()),
            None => Ok(false),
        },
        NoPath(a, b) => Ok(path(matrix, a, b)?.is_none()),
    }
}

/// Takes the steps in a new matrix; which of them is the first that fails.
fn first_failure(alloc: Global, size: u16, steps: &[MatrixStep]) -> Result<Option<usize>, Fault> {
    if size < 1 || size > 1023 {
        return Ok(Some(0));
    }
    let mut matrix = Matrix::new(alloc, size)?;
    for (at, step) in steps.iter().enumerate() {
        if !take(&mut matrix, *step)? {
            return Ok(Some(at));
        }
    }
    Ok(None)
}

// The steps are taken again where a growth was refused, so this passes whichever one is.
#[test]
fn steps_of_matrices(rt: HostRuntime) -> Result<(), Fail> {
    let chain = CHAIN.as_slice();
    for (size, steps) in [
        (4, chain),
        (63, chain),
        (64, chain),
        (65, chain),
        (1023, chain),
        (65, LAST_WORD.as_slice()),
        (1023, GREATEST.as_slice()),
    ] {
        let mut told = first_failure(rt.alloc(), size, steps);
        if told == Err(Fault::OutOfMemory) {
            told = first_failure(rt.alloc(), size, steps);
        }
        assert_eq!(rt; told, Ok(None), "in a matrix of {size}");
    }
    Ok(())
}
