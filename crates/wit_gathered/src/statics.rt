//! The symbols of static variables.

ghost use Rattle.std.specs.Prelude.{◌≡◌, ◌++◌, [], IfOk, OnOk, is_some, unwrap_or};
ghost use Rattle.std.specs.BTreeMap.{insert_entry};
ghost use Rattle.std.specs.Map.Iter.{deref_pair};
ghost use Rattle.std.specs.Option.{option_map};
ghost use Rattle.std.specs.Ordering.{nat_cmp};
ghost use Rattle.wit_gathered.specs.Symbols.{hexadecimal, name_at, offset_text, symbol_at, symbols};

use std::alloc::{AllocError, Global};
use std::collections::BTreeMap;
use std::marker::Model;
use wit_traced::Symbol;

/// Locks of the kernel itself and of its modules lie from here on.
const FIRST: u64 = 0xffff_ffff_8100_0000;

/// The name of a variable.
#[derive(Debug, Drop)]
pub struct SymbolName {
    bytes: Vec<u8>,
}

impl Model for SymbolName {
    ghost use Rattle.std.specs.Prelude.{ℕ, List};

    ghost Value = { List ℕ };

    ghost view = { λ n. n.bytes.items };
}

impl SymbolName {
    fn new(alloc: Global, bytes: &[u8]) -> Result<SymbolName, AllocError>
        ensures { IfOk result (λ name. name ≡ bytes.now) }
    {
        Ok(SymbolName {
            bytes: Vec::from_slice(alloc, bytes)?,
        })
    }

    fn as_bytes(&self) -> &[u8]
        ensures { result.now ≡ self.now }
    {
        self.bytes.as_slice()
    }
}

/// The symbols that were read, by their addresses. Of several at one address the last is kept.
#[derive(Drop)]
pub struct Statics {
    alloc: Global,
    symbols: BTreeMap<u64, SymbolName>,
}

impl Statics {
    /// None yet.
    pub fn new(alloc: Global) -> Statics
        ensures { symbols result ≡ [] }
    {
        Statics {
            alloc,
            symbols: BTreeMap::new(alloc),
        }
    }

    /// Adds one.
    ///
    /// # Errors
    /// Want of memory alone.
    pub fn add(&mut self, symbol: Symbol<'_>) -> Result<(), AllocError>
        ensures { OnOk result (symbols self.new
            ≡ insert_entry nat_cmp (symbols self.old) symbol.entry.address symbol.entry.name.now) }
    {
        let name = SymbolName::new(self.alloc, symbol.name)?;
        self.symbols.insert(symbol.address, name)?;
        Ok(())
    }

    // The last symbol at the address or before it.
    fn symbol_at(&self, address: u64) -> Option<(&u64, &SymbolName)>
        ensures { option_map deref_pair result ≡ symbol_at (symbols self.now) address }
    {
        self.symbols.range(..=address).next_back()
    }

    /// Puts the symbol of the static variable that an address lies in behind the text, with how far
    /// behind its beginning; says whether there is one.
    ///
    /// # Errors
    /// Want of memory alone.
    pub fn put_symbol(&self, address: u64, text: &mut Vec<u8>) -> Result<bool, AllocError>
        ensures found { IfOk result (λ found. found ≡ is_some (name_at (symbols self.now) address)) }
        ensures text { OnOk result (text.new.items
            ≡ text.old.items ++ unwrap_or (name_at (symbols self.now) address) []) }
    {
        if address < FIRST {
            return Ok(false);
        }
        match self.symbol_at(address) {
            Some((first, name)) => {
                text.extend_from_slice(name.as_bytes())?;
                put_offset(self.alloc, text, address.saturating_sub(*first))?;
                Ok(true)
            }
            None => Ok(false),
        }
    }
}

fn put_offset(alloc: Global, text: &mut Vec<u8>, offset: u64) -> Result<(), AllocError>
    ensures { OnOk result (text.new.items ≡ text.old.items ++ offset_text offset) }
{
    if offset == 0 {
        return Ok(());
    }
    text.push(b'+')?;
    put_hexadecimal(alloc, text, offset)
}

/// Puts a number behind the text, by hexadecimal digits behind `0x`.
///
/// # Errors
/// Want of memory alone.
pub fn put_hexadecimal(alloc: Global, text: &mut Vec<u8>, number: u64) -> Result<(), AllocError>
    ensures { OnOk result (text.new.items ≡ text.old.items ++ hexadecimal number) }
{
    let digits = format!(in alloc; "0x{number:x}")?;
    text.extend_from_slice(digits.as_bytes())
}
