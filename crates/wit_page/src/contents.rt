//! What is known of all reports before the first one is written.

use crate::sections::{Section, section_of};
use json::{Scratch, Value};
use std::alloc::{AllocError, Global};
use wit_documents::reading::{list, truth};
use wit_documents::{Items, is_confirmed};

/// Where a report stands in the page: what is confirmed comes first in its section.
#[derive(Clone, Copy, Drop, PartialEq, Eq)]
pub(crate) struct Place {
    /// Its section.
    pub(crate) section: Section,
    /// Whether it hung in a steered run.
    pub(crate) is_confirmed: bool,
}

/// Where each report stands, and by what it is found.
#[derive(Drop)]
pub(crate) struct Contents {
    places: Vec<Place>,
    /// The types of all reports, each once.
    pub(crate) types: Vec<String>,
    /// How many count for the status.
    pub(crate) counted: usize,
}

impl Contents {
    /// Those of these reports.
    ///
    /// # Errors
    /// Want of memory alone.
    pub(crate) fn of(alloc: Global, reports: Items<'_>) -> Result<Contents, AllocError> {
        let mut scratch = Scratch::new(alloc);
        let mut contents = Contents {
            places: Vec::new(alloc),
            types: Vec::new(alloc),
            counted: 0,
        };
        for number in 0..reports.len() {
            let report = reports.read(alloc, number, &mut scratch)?;
            contents.add(alloc, &report)?;
        }
        Ok(contents)
    }

    fn add(&mut self, alloc: Global, report: &Value<'_>) -> Result<(), AllocError> {
        self.places.push(Place {
            section: section_of(report),
            is_confirmed: is_confirmed(report),
        })?;
        if truth(report, "counts") {
            self.counted = self.counted.saturating_add(1);
        }
        for each in list(report, "types") {
            add_type(alloc, &mut self.types, each)?;
        }
        Ok(())
    }

    /// How many reports stand in the section.
    pub(crate) fn count_in(&self, section: Section) -> usize {
        let mut count: usize = 0;
        for place in &self.places {
            if place.section == section {
                count = count.saturating_add(1);
            }
        }
        count
    }

    /// Whether the report of that number, from 0 on, stands there.
    pub(crate) fn is_at(&self, number: usize, place: Place) -> bool {
        number < self.places.len() && self.places[number] == place
    }
}

fn add_type(alloc: Global, types: &mut Vec<String>, each: &Value<'_>) -> Result<(), AllocError> {
    let Some(name) = each.as_str() else {
        return Ok(());
    };
    for known in types.as_slice() {
        if known.as_str() == name {
            return Ok(());
        }
    }
    types.push(String::from_str(alloc, name)?)?;
    Ok(())
}
