//! What the program can be asked to do.

use wit_lines::View;
use wit_merge::Shown;

/// What an import of ftrace tells by locks.
#[derive(Clone, Copy, Debug, PartialEq, Eq)]
pub struct Encoding {
    /// An interrupt is one.
    pub interrupts: bool,
    /// Recursive readers have one that is apart from that of writers.
    pub readers: bool,
}

/// What an option says of an encoding.
#[derive(Clone, Copy, Debug, PartialEq, Eq)]
pub(crate) enum Choice {
    /// Whether an interrupt is a lock.
    Interrupts(bool),
    /// Whether recursive readers have one of their own.
    Readers(bool),
}

/// Who writes the lines that are imported.
#[derive(Clone, Copy, Debug, PartialEq, Eq)]
pub enum Source {
    /// `plain`: a script, a line for each event.
    Plain,
    /// `ftrace`: the kernel.
    Ftrace(Encoding),
    /// `lttng`: babeltrace2, of LTTng's pthread wrapper.
    Lttng,
}

/// What a JSON report is written as.
#[derive(Clone, Copy, Debug, PartialEq, Eq)]
pub enum Form {
    /// `html`: a page for people.
    Html,
    /// `sarif`: a log of SARIF, for what shows the results of analyses beside the sources.
    Sarif,
    /// `text`: what was told, for a terminal.
    Text,
    /// `dot`: a graph of the orders of each process.
    Dot,
    /// `pictures`: the graphs that the pictures of a page are drawn of.
    Pictures,
}

/// What is made of the lines on standard input, one after another.
#[derive(Clone, Copy, Debug, PartialEq, Eq)]
pub enum Machine {
    /// A view of a trace.
    Show(View),
    /// A trace in the second version of the format.
    Migrate,
    /// What is forecast of the reports of a trace.
    Forecast,
    /// The grades of facts.
    Grade,
    /// The findings of a recording.
    Find,
    /// What is against others among orders.
    Judge,
    /// The orders of files, shown so.
    Merge(Shown),
    /// Lines that such a source wrote, as a trace.
    Import(Source),
}

/// What a command line asks for.
#[derive(Clone, Copy, Debug, PartialEq, Eq)]
pub enum Command {
    /// What such a machine makes of standard input.
    Run(Machine),
    /// The JSON report on standard input, in such a form.
    Write(Form),
    /// The demonstration.
    Demo,
}
