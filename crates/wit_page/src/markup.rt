//! Markup in the making. A text of the report comes in escaped, and there is no other way.

ghost use Rattle.std.specs.Prelude.{◌≡◌, ◌++◌, string_bytes, flat_map, OnOk};
ghost use Rattle.std.specs.Str.{chars};
ghost use Rattle.std.specs.Fmt.{decimal};
ghost use Rattle.wit_page.specs.Escapes.{html_char};

use crate::escapes::put_escaped;
use std::alloc::{AllocError, Global};
use std::io::Write;
use wit_documents::{DocumentError, put_uri};

// So much is handed over in the middle of a list or a table.
const MUCH: usize = 32768;

/// Markup, which is handed over as it grows.
#[derive(Drop)]
pub struct Markup {
    text: String,
}

impl Markup {
    /// None yet.
    pub fn new(alloc: Global) -> Markup {
        Markup {
            text: String::new(alloc),
        }
    }

    /// Adds markup, which is the page's own: it stands in the program.
    ///
    /// # Errors
    /// Want of memory alone, as of the next four.
    pub fn tag(&mut self, markup: &'static str) -> Result<(), AllocError>
        ensures { OnOk result
            (string_bytes self.new.text ≡ string_bytes self.old.text ++ markup.now) }
    {
        self.text.push_str(markup)
    }

    /// Adds a text.
    pub fn text(&mut self, text: &str) -> Result<(), AllocError>
        ensures { OnOk result (string_bytes self.new.text
            ≡ string_bytes self.old.text ++ flat_map html_char (chars text.now)) }
    {
        put_escaped(&mut self.text, text)
    }

    /// Adds a number.
    pub fn number(&mut self, alloc: Global, number: usize) -> Result<(), AllocError>
        ensures { OnOk result
            (string_bytes self.new.text ≡ string_bytes self.old.text ++ decimal number) }
    {
        let digits = number.to_string(alloc)?;
        self.text.push_str(&digits)
    }

    /// Adds an element that has a text: `<code>TEXT</code>`.
    pub fn code(&mut self, text: &str) -> Result<(), AllocError> {
        self.tag("<code>")?;
        self.text(text)?;
        self.tag("</code>")
    }

    /// Adds the text byte by byte as a URI has it.
    pub fn uri(&mut self, text: &str) -> Result<(), AllocError> {
        put_uri(&mut self.text, text)
    }

    /// Writes what there is, where it is much.
    ///
    /// # Errors
    /// As of the next one.
    pub(crate) fn hand_over_much<W: Write>(&mut self, output: &mut W) -> Result<(), DocumentError> {
        if self.text.len() < MUCH {
            return Ok(());
        }
        self.hand_over(output)
    }

    /// Writes what there is, which is forgotten.
    ///
    /// # Errors
    /// `Write` where it can't be written.
    pub fn hand_over<W: Write>(&mut self, output: &mut W) -> Result<(), DocumentError> {
        match output.write_all(self.text.as_bytes()) {
            Ok(()) => {
                self.text.clear();
                Ok(())
            }
            Err(_) => Err(DocumentError::Write),
        }
    }
}
