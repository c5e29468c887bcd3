//! A line of `/proc/kallsyms`: an address, a letter, a name, and for one of a module the module.

ghost use Rattle.std.specs.Prelude.{◌≡◌};
ghost use Rattle.std.specs.Option.{option_map};
ghost use Rattle.wit_traced.specs.SymbolLines.{is_of_data, named_symbol, symbol, symbol_behind, symbol_of};

use crate::numbers::hexadecimal;
use crate::pieces::before;

/// The symbol of a static variable.
#[derive(Clone, Copy, Debug)]
pub struct Symbol<'a> {
    pub address: u64,
    pub name: &'a [u8],
}

/// What a line says: `None` where it is no line of symbols, and no symbol where it is that of a function.
#[tactic(auto, unfolding(crate::specs::SymbolLines::symbol_of))]
pub fn symbol_of(line: &[u8]) -> Option<Option<Symbol<'_>>>
    ensures { option_map (option_map symbol) result ≡ symbol_of line.now }
{
    let (address, behind_address) = before(b' ', line);
    if address.len() < 8 {
        return None;
    }
    symbol_behind(hexadecimal(address)?, behind_address)
}

fn symbol_behind(address: u64, text: &[u8]) -> Option<Option<Symbol<'_>>>
    ensures { option_map (option_map symbol) result ≡ symbol_behind address text.now }
{
    match text {
        [first, letter, second, text @ ..] => {
            if *first == b' ' && *second == b' ' && letter.is_ascii_alphabetic() {
                named_symbol(address, *letter, before(b' ', before(b'\t', text).0).0)
            } else {
                None
            }
        }
        _ => None,
    }
}

fn named_symbol(address: u64, letter: u8, name: &[u8]) -> Option<Option<Symbol<'_>>>
    ensures { option_map (option_map symbol) result ≡ named_symbol address letter name.now }
{
    if name.is_empty() {
        None
    } else if address == 0 || !is_of_data(letter) {
        Some(None)
    } else {
        Some(Some(Symbol { address, name }))
    }
}

fn is_of_data(letter: u8) -> bool
    ensures { result ≡ is_of_data letter }
{
    matches!(letter, b'd' | b'D' | b'b' | b'B' | b'r' | b'R')
}
