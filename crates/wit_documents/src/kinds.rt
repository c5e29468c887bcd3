//! The kinds of reports, and what is said of each.

use crate::reading::{digits, member, words};
use json::Value;

/// What a report is of.
#[derive(Clone, Copy, Debug, Drop, PartialEq, Eq)]
pub enum Kind {
    /// Locks of two types are taken in both orders.
    Reversal,
    /// Two locks of one type are taken.
    Duplicate,
    /// Threads wait for one another.
    Circle,
    /// A thread waits for itself.
    Itself,
    /// A lock is used as it may not be.
    Error,
    /// Something is said of the recording.
    Other,
}

/// The kinds that are of the program, in the order of SARIF's rules.
pub(crate) static RULES: [Kind; 5] = [
    Kind::Reversal,
    Kind::Duplicate,
    Kind::Circle,
    Kind::Itself,
    Kind::Error,
];

/// All kinds.
pub static KINDS: [Kind; 6] = [
    Kind::Reversal,
    Kind::Duplicate,
    Kind::Circle,
    Kind::Itself,
    Kind::Error,
    Kind::Other,
];

/// The kind of a report, by its word. A word that isn't known is of the recording.
pub fn kind_of(report: &Value<'_>) -> Kind {
    let word = words(report, "kind");
    if word == "reversal" {
        Kind::Reversal
    } else if word == "duplicate" {
        Kind::Duplicate
    } else if word == "circle" {
        Kind::Circle
    } else if word == "self" {
        Kind::Itself
    } else if word == "error" {
        Kind::Error
    } else {
        Kind::Other
    }
}

/// Whether it hung in a steered run.
pub fn is_confirmed(report: &Value<'_>) -> bool {
    match member(report, "confirmed") {
        Some(confirmed) => digits(confirmed, "run").is_some(),
        None => false,
    }
}

impl Kind {
    /// Its rule's number in the list of rules, where it has one.
    pub(crate) fn rule_number(self) -> usize {
        match self {
            Kind::Reversal => 0,
            Kind::Duplicate => 1,
            Kind::Circle => 2,
            Kind::Itself => 3,
            Kind::Error | Kind::Other => 4,
        }
    }

    /// Whether what it tells has come to pass.
    pub(crate) fn is_certain(self) -> bool {
        match self {
            Kind::Circle | Kind::Itself => true,
            _ => false,
        }
    }

    /// Its word in a JSON report.
    pub fn word(self) -> &'static str {
        match self {
            Kind::Reversal => "reversal",
            Kind::Duplicate => "duplicate",
            Kind::Circle => "circle",
            Kind::Itself => "self",
            Kind::Error => "error",
            Kind::Other => "other",
        }
    }

    /// The identifier of its rule.
    pub(crate) fn rule(self) -> &'static str {
        match self {
            Kind::Reversal => "lock-order-reversal",
            Kind::Duplicate => "duplicate-lock-type",
            Kind::Circle => "deadlock",
            Kind::Itself => "self-deadlock",
            Kind::Error => "lock-error",
            Kind::Other => "recording",
        }
    }

    /// Its name in a heading.
    pub fn name(self) -> &'static str {
        match self {
            Kind::Reversal => "Lock order reversal",
            Kind::Duplicate => "Two locks of one type",
            Kind::Circle => "Threads that wait for one another",
            Kind::Itself => "A thread that waits for itself",
            Kind::Error => "An error in the use of a lock",
            Kind::Other => "The recording",
        }
    }

    /// What it means, in a sentence.
    pub(crate) fn meaning(self) -> &'static str {
        match self {
            Kind::Reversal => "Locks of two types are taken in both orders.",
            Kind::Duplicate => {
                "A thread takes two locks of one type, and nothing says in which order."
            }
            Kind::Circle => "Threads wait for one another's locks in a circle.",
            Kind::Itself => "A thread waits for a lock that it holds itself.",
            Kind::Error => "A lock is used as it may not be.",
            Kind::Other => "Something is said of the recording itself.",
        }
    }

    /// What to do about it, in some sentences.
    pub(crate) fn help(self) -> &'static str {
        match self {
            Kind::Reversal => {
                "A thread asks for a lock while it holds another one, and the opposite order of their types is established. If both orders can run in two threads at once, each may come to wait for the other for good. Take the locks in the established order, or release the held one before the other is asked for."
            }
            Kind::Duplicate => {
                "A thread asks for a lock while it holds another one of the same type. A second thread may take the two the other way round, and no order of types would show that. Take them in an order of their own, by their addresses say, or have them made in two places, which gives them two types."
            }
            Kind::Circle => {
                "Each thread of the circle waits for a lock that the next one holds. Let one of them take its locks in the order of the others, or release what it holds before it asks for more."
            }
            Kind::Itself => {
                "A thread asks for a lock that it has, and that can't be taken twice. Release the lock before the call, or part the function into one that locks and one that expects the lock to be held."
            }
            Kind::Error => {
                "A thread ends with a lock that it holds, a lock is destroyed, freed or made anew while it is held, or a condition is waited for without its mutex. Nobody may ever get such a lock again, or what it guards isn't guarded."
            }
            Kind::Other => {
                "The verifier could not go on with the recording: what came after isn't known."
            }
        }
    }
}
