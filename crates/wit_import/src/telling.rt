//! A trace in the making: it is told of events, one behind the other.

ghost use Rattle.std.specs.Prelude.{◌≡◌, IfOk, OnOk};
ghost use Rattle.wit_import.specs.Telling.{nothing_told, told, told_after};

use crate::events::Event;
use crate::importing::{Counts, Importing, put_header};
use std::alloc::{AllocError, Global};

/// What was told so far, and the text of the trace.
#[derive(Drop)]
pub struct Teller {
    importing: Importing,
    text: Vec<u8>,
}

impl Teller {
    /// A trace of no event.
    ///
    /// # Errors
    /// Want of memory alone.
    pub fn new(alloc: Global) -> Result<Teller, AllocError>
        ensures { IfOk result (λ teller. told teller ≡ nothing_told) }
    {
        let mut text = Vec::new(alloc);
        put_header(&mut text)?;
        let importing = Importing::new(alloc);
        Ok(Teller { importing, text })
    }

    /// Tells an event.
    ///
    /// # Errors
    /// Want of memory alone; nothing is promised then.
    pub fn tell(&mut self, alloc: Global, event: Event) -> Result<(), AllocError>
        ensures { OnOk result (told self.new ≡ told_after (told self.old) event) }
    {
        self.importing.follow(alloc, event, &mut self.text)
    }

    /// The trace, and what was counted.
    pub fn into_trace(self) -> (Vec<u8>, Counts)
        ensures { result.0.items ≡ (told self).text }
    {
        (self.text, self.importing.counts)
    }
}
