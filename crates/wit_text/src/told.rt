//! What was told besides the reports, line by line.

use crate::lines::Lines;
use json::{Scratch, Value};
use std::alloc::{AllocError, Global};
use wit_documents::{Items, Outline};

/// What is told of, and by whom.
#[derive(Drop)]
pub(crate) struct Told<'a> {
    /// The command that told it.
    pub(crate) command: &'a str,
    /// The lines.
    pub(crate) lines: Items<'a>,
    // The numbers of the processes, in the sequence in which they were told of.
    processes: Vec<Option<String>>,
    /// Whether several processes were told of: their lines begin with their numbers then.
    pub(crate) is_of_several: bool,
}

impl<'a> Told<'a> {
    /// What the report tells.
    ///
    /// # Errors
    /// Want of memory alone, as of all that follow.
    pub(crate) fn of(alloc: Global, findings: &'a Outline<'_>) -> Result<Told<'a>, AllocError> {
        let processes = numbers_of(alloc, findings.list("processes"))?;
        let is_of_several = differ(processes.as_slice());
        Ok(Told {
            command: findings.words("command"),
            lines: findings.list("told"),
            processes,
            is_of_several,
        })
    }

    /// The line, from that number on, before which all are of processes that come before this one.
    pub(crate) fn end_before(
        &self,
        alloc: Global,
        from: usize,
        process: &str,
    ) -> Result<usize, AllocError> {
        let lines = self.lines;
        let mut scratch = Scratch::new(alloc);
        for number in from..lines.len() {
            let line = lines.read(alloc, number, &mut scratch)?;
            match speaker_of(&line) {
                Some((speaker, _)) if self.comes_before(speaker, process) => {}
                _ => return Ok(number),
            }
        }
        Ok(lines.len())
    }

    fn comes_before(&self, one: &str, other: &str) -> bool {
        for process in &self.processes {
            if let Some(number) = process {
                if number.as_str() == other {
                    return false;
                }
                if number.as_str() == one {
                    return true;
                }
            }
        }
        false
    }

    /// Adds the line of that number.
    pub(crate) fn put_line(
        &self,
        to: &mut Lines,
        alloc: Global,
        number: usize,
    ) -> Result<(), AllocError> {
        let mut scratch = Scratch::new(alloc);
        let line = self.lines.read(alloc, number, &mut scratch)?;
        to.speaker = None;
        match speaker_of(&line) {
            Some((speaker, rest)) if self.is_of_several => {
                to.speaker = Some(String::from_str(alloc, speaker)?);
                self.put_words(to, rest)
            }
            _ => match line.as_str() {
                Some(words) => self.put_words(to, words),
                None => Ok(()),
            },
        }
    }

    fn put_words(&self, to: &mut Lines, words: &str) -> Result<(), AllocError> {
        if is_bare(words) {
            return to.line(words);
        }
        to.begin()?;
        to.text(self.command)?;
        to.own(": ")?;
        to.text(words)?;
        to.end()
    }
}

fn numbers_of(alloc: Global, processes: Items<'_>) -> Result<Vec<Option<String>>, AllocError> {
    let mut numbers = Vec::new(alloc);
    for number in 0..processes.len() {
        let process = processes.outline(alloc, number)?;
        numbers.push(match process.digits("process") {
            Some(digits) => Some(String::from_str(alloc, digits)?),
            None => None,
        })?;
    }
    Ok(numbers)
}

// Whether one is another than the first.
fn differ(numbers: &[Option<String>]) -> bool {
    for number in numbers {
        if digits_of(number) != digits_of(&numbers[0]) {
            return true;
        }
    }
    false
}

/// The digits of a number that may not be known.
pub(crate) fn digits_of(number: &Option<String>) -> Option<&str> {
    match number {
        Some(digits) => Some(digits.as_str()),
        None => None,
    }
}

// Of `process NUMBER: WORDS` the number and the words.
fn speaker_of<'a>(line: &Value<'a>) -> Option<(&'a str, &'a str)> {
    let Some(line) = line.as_str() else {
        return None;
    };
    let Some(rest) = line.strip_prefix("process ") else {
        return None;
    };
    rest.split_once(": ")
}

// Whether the line was told without the command's name: one of a list, or of orders, or a heading.
fn is_bare(words: &str) -> bool {
    words.starts_with(' ')
        || words.starts_with("+ ")
        || words.starts_with("! ")
        || words == "held now:"
}
