//! Names of locks, of their types and of source files.

ghost use Rattle.std.specs.Prelude.{◌≡◌, true, IfOk, Some, None, string_bytes, if◌then◌else◌};
ghost use Rattle.std.specs.List.{list_all};
ghost use Rattle.wit_model.specs.Rules.Names.{is_name, is_file_name, is_name_byte, is_file_byte};

use std::alloc::{AllocError, Global};
use std::marker::Model;

/// The name of a lock or of a type: 1 to 63 bytes, each from 0x20 to 0x7e, without `"`. Who has one
/// needn't test it.
#[derive(Debug, Drop)]
pub struct Name {
    text: String,
}

impl Model for Name {
    ghost use Rattle.std.specs.Prelude.{ℕ, List, string_bytes};

    ghost Value = { List ℕ };

    ghost view = { λ n. string_bytes n.text };

    ghost use Rattle.std.specs.Prelude.{◌≡◌, true};
    ghost use Rattle.wit_model.specs.Rules.Names.{is_name};

    ghost invariant = { λ n. is_name (string_bytes n.text) ≡ true };
}

impl Name {
    /// The greatest length in bytes.
    pub const MOST: usize = 63;

    /// The name with this text: `None` exactly where it is no name.
    ///
    /// # Errors
    /// Want of memory alone.
    pub fn new(alloc: Global, text: &str) -> Result<Option<Name>, AllocError>
        ensures { IfOk result (λ n. n ≡ if is_name text.now then Some text.now else None) }
    {
        if !Name::accepts(text) {
            return Ok(None);
        }
        Ok(Some(Name::tested(alloc, text)?))
    }

    /// The name with this text, which `accepts` allows.
    ///
    /// # Errors
    /// Want of memory alone.
    pub fn tested(alloc: Global, text: &str) -> Result<Name, AllocError>
        requires { is_name text.now ≡ true }
        ensures { IfOk result (λ n. n ≡ text.now) }
    {
        Ok(Name {
            text: String::from_str(alloc, text)?,
        })
    }

    /// Its text.
    pub fn as_str(&self) -> &str
        ensures text { result.now ≡ self.now }
        ensures good { is_name self.now ≡ true }
    {
        self.text.as_str()
    }

    /// A second name with the text of this one.
    ///
    /// # Errors
    /// Want of memory alone.
    pub fn copy(&self, alloc: Global) -> Result<Name, AllocError>
        ensures { IfOk result (λ n. n ≡ self.now) }
    {
        Name::tested(alloc, self.as_str())
    }

    /// Its text, for good.
    pub fn into_string(self) -> String
        ensures { string_bytes result ≡ self }
    {
        self.text
    }

    /// Whether a text is a name.
    pub fn accepts(text: &str) -> bool
        ensures { result ≡ is_name text.now }
    {
        let bytes = text.as_bytes();
        !bytes.is_empty() && bytes.len() <= Name::MOST && are_name_bytes(bytes)
    }
}

/// The name of a source file, as somebody gives it: any text. `accepts` tells whether it is 1 to
/// 255 bytes, each from 0x21 to 0x7e, without `"`.
#[derive(Debug, Drop)]
pub struct FileName {
    text: String,
}

impl Model for FileName {
    ghost use Rattle.std.specs.Prelude.{ℕ, List, string_bytes};

    ghost Value = { List ℕ };

    ghost view = { λ n. string_bytes n.text };
}

impl FileName {
    /// The greatest length in bytes that `accepts` allows.
    pub const MOST: usize = 255;

    /// The file name with this text, which isn't tested.
    ///
    /// # Errors
    /// Want of memory alone.
    pub fn new(alloc: Global, text: &str) -> Result<FileName, AllocError>
        ensures { IfOk result (λ n. n ≡ text.now) }
    {
        Ok(FileName {
            text: String::from_str(alloc, text)?,
        })
    }

    /// Its text.
    pub fn as_str(&self) -> &str
        ensures { result.now ≡ self.now }
    {
        self.text.as_str()
    }

    /// Whether a text is a file name.
    pub fn accepts(text: &str) -> bool
        ensures { result ≡ is_file_name text.now }
    {
        let bytes = text.as_bytes();
        !bytes.is_empty() && bytes.len() <= FileName::MOST && are_file_bytes(bytes)
    }
}

fn is_name_byte(byte: u8) -> bool
    ensures { result ≡ is_name_byte byte }
{
    byte >= 0x20 && byte <= 0x7e && byte != b'"'
}

fn is_file_byte(byte: u8) -> bool
    ensures { result ≡ is_file_byte byte }
{
    byte >= 0x21 && byte <= 0x7e && byte != b'"'
}

fn are_name_bytes(bytes: &[u8]) -> bool
    ensures { result ≡ list_all is_name_byte bytes.now }
{
    bytes.iter().all(|b| is_name_byte(*b))
}

fn are_file_bytes(bytes: &[u8]) -> bool
    ensures { result ≡ list_all is_file_byte bytes.now }
{
    bytes.iter().all(|b| is_file_byte(*b))
}
