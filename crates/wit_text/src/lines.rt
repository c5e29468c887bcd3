//! Lines in the making. A text of the report comes in as a terminal shows it, and there is no other way.

ghost use Rattle.std.specs.Prelude.{◌≡◌, ◌++◌, string_bytes, flat_map, OnOk};
ghost use Rattle.std.specs.Str.{chars};
ghost use Rattle.wit_text.specs.Shown.{shown_char};

use crate::shown::put_shown;
use std::alloc::{AllocError, Global};
use std::io::Write;
use wit_documents::DocumentError;

// So much is handed over between two lines.
const MUCH: usize = 32768;

/// Lines, which are handed over as they grow.
#[derive(Drop)]
pub(crate) struct Lines {
    text: String,
    /// The number of the process whose lines follow; `None` where they are of the whole run.
    pub(crate) speaker: Option<String>,
}

impl Lines {
    /// None yet.
    pub(crate) fn new(alloc: Global) -> Lines {
        Lines {
            text: String::new(alloc),
            speaker: None,
        }
    }

    /// Adds words of the program's own.
    ///
    /// # Errors
    /// Want of memory alone, as of the next four.
    pub(crate) fn own(&mut self, words: &'static str) -> Result<(), AllocError>
        ensures { OnOk result
            (string_bytes self.new.text ≡ string_bytes self.old.text ++ words.now) }
    {
        self.text.push_str(words)
    }

    /// Adds a text.
    pub(crate) fn text(&mut self, text: &str) -> Result<(), AllocError>
        ensures { OnOk result (string_bytes self.new.text
            ≡ string_bytes self.old.text ++ flat_map shown_char (chars text.now)) }
    {
        put_shown(&mut self.text, text)
    }

    /// Begins a line, by the number of the process that speaks.
    pub(crate) fn begin(&mut self) -> Result<(), AllocError> {
        match &self.speaker {
            Some(number) => {
                self.text.push_str("==")?;
                put_shown(&mut self.text, number.as_str())?;
                self.text.push_str("== ")
            }
            None => Ok(()),
        }
    }

    /// Ends a line.
    pub(crate) fn end(&mut self) -> Result<(), AllocError> {
        self.own("\n")
    }

    /// Adds a line.
    pub(crate) fn line(&mut self, text: &str) -> Result<(), AllocError> {
        self.begin()?;
        self.text(text)?;
        self.end()
    }

    /// Writes what there is, where it is much.
    ///
    /// # Errors
    /// As of the next one.
    pub(crate) fn hand_over_much<W: Write>(&mut self, output: &mut W) -> Result<(), DocumentError> {
        if self.text.len() < MUCH {
            return Ok(());
        }
        self.hand_over(output)
    }

    /// Writes what there is, which is forgotten.
    ///
    /// # Errors
    /// `Write` where it can't be written.
    pub(crate) fn hand_over<W: Write>(&mut self, output: &mut W) -> Result<(), DocumentError> {
        match output.write_all(self.text.as_bytes()) {
            Ok(()) => {
                self.text.clear();
                Ok(())
            }
            Err(_) => Err(DocumentError::Write),
        }
    }
}
