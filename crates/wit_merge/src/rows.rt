//! The orders that were read, each once, with how often each was met.

ghost use Rattle.std.specs.Prelude.{◌≡◌, ◌<◌, ◌++◌, ◌∷◌, [], None, length, IfSome, OnOk};
ghost use Rattle.wit_merge.specs.Rows.{counted_in, entered, is_met, place_in, row, rows_of};

use crate::reading::Count;
use crate::standing::{Standing, Tally};
use indexmap::IndexMap;
use std::alloc::{AllocError, Global};

/// What is kept of an order.
#[derive(Drop)]
pub struct Note {
    /// Its origin, as it came first.
    pub origin: Vec<u8>,
    /// How often it was met.
    pub tally: Tally,
}

/// The orders, as they are written.
pub type Rows = IndexMap<Vec<u8>, Note>;

const UNMET: Tally = Tally {
    runs: 0,
    last: 0,
    file: 0,
};

// Where an order stands.
fn place_of(rows: &Rows, key: &[u8]) -> Option<usize>
    ensures place { result ≡ place_in (rows_of rows.now.entries) key.now }
    ensures within { IfSome result (λ i. i < length rows.now.entries) }
{
    rows.get_index_of(key)
}

/// Enters an order that the file has. Its first origin stays.
///
/// # Errors
/// Want of memory alone.
pub fn enter(
    alloc: Global,
    rows: &mut Rows,
    standing: Standing,
    key: &[u8],
    origin: &[u8],
) -> Result<(), AllocError>
    ensures { OnOk result (rows_of rows.new.entries
        ≡ entered standing (rows_of rows.old.entries) key.now origin.now) }
{
    match place_of(rows, key) {
        Some(place) => {
            let note = &mut rows[place];
            note.tally = standing.again(note.tally);
            Ok(())
        }
        None => add(alloc, rows, key, origin, standing.again(UNMET)),
    }
}

// Adds a new order.
fn add(
    alloc: Global,
    rows: &mut Rows,
    key: &[u8],
    origin: &[u8],
    tally: Tally,
) -> Result<(), AllocError>
    requires { place_in (rows_of rows.old.entries) key.now ≡ None }
    ensures { OnOk result (rows_of rows.new.entries
        ≡ rows_of rows.old.entries ++ row key.now origin.now tally ∷ []) }
{
    let origin = Vec::from_slice(alloc, origin)?;
    let key = Vec::from_slice(alloc, key)?;
    rows.insert(key, Note { origin, tally })?;
    Ok(())
}

/// Counts the runs that met an order, where the file has it, and says whether it does.
pub fn count(rows: &mut Rows, standing: Standing, key: &[u8], count: Count) -> bool
    ensures rows { rows_of rows.new.entries
        ≡ counted_in standing (rows_of rows.old.entries) key.now count }
    ensures met { result ≡ is_met standing (rows_of rows.old.entries) key.now }
{
    match place_of(rows, key) {
        Some(place) => {
            let note = &mut rows[place];
            let is_met = note.tally.file == standing.files;
            note.tally = standing.counted(note.tally, count);
            is_met
        }
        None => false,
    }
}
