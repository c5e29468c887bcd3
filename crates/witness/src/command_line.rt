//! The command line: exactly one word, which says what is asked for, or words that ask for an import.

ghost use Rattle.std.specs.Prelude.{◌≡◌, [], ◌∷◌, IfOk, IfErr, IfSome, IfNone, None, true, codes};
ghost use Rattle.std.specs.Prelude.{map, option_map};
ghost use Rattle.clap.specs.Words.{first_of, kind_of, matches_of, takes};
ghost use Rattle.witness.specs.CommandLine.{asked, asked_alone, bytes_of, command_line};
ghost use Rattle.witness.specs.CommandLine.{alone, choice_named, command_named, encoding_by};
ghost use Rattle.witness.specs.CommandLine.{named_by_two, task_alone, task_named, unseen_within};
ghost use Rattle.wit_model.specs.Trace.Words.{number_of};
ghost use Rattle.witness.specs.CommandLine.{ftrace_by, import_named, with_choice};
ghost use Rattle.witness.specs.CommandLine.{only_word, option_named, source_named, with_option};

use crate::command::{Choice, Command, Encoding, Form, Machine, Source};
use clap::error::ErrorKind;
use clap::{Arg, ArgAction, Error};
use std::alloc::{AllocError, Global};
use std::convert::AsStr;
use std::str;
use wit_fields::LineError;
use wit_fields::numbers::number_of;
use wit_lines::View;
use wit_merge::Shown;

/// What these words ask for, which stand behind the program's name: `None` where they aren't
/// exactly one word that says it, or `orders` and what is to be done with them, or `import` and a source.
/// Options may stand after `ftrace`, and after `unseen` stands a number. No other option does, nor does
/// a word for help.
///
/// # Errors
/// Want of memory.
#[tactic(auto, unfolding(crate::specs::CommandLine::asked))]
pub fn asked_command(alloc: Global, words: &[Vec<u8>]) -> Result<Option<Command>, AllocError>
    ensures { IfOk result (λ command. command ≡ asked (bytes_of words.now)) }
{
    match words {
        [word, next, options @ ..] => named_by_two(word.as_slice(), next.as_slice(), options),
        _ => asked_alone(alloc, words),
    }
}

fn named_by_two(
    word: &[u8],
    next: &[u8],
    options: &[Vec<u8>],
) -> Result<Option<Command>, AllocError>
    ensures { IfOk result (λ command. command
        ≡ named_by_two word.now next.now (bytes_of options.now)) }
{
    if word == b"orders".as_slice() {
        named_task(next, options)
    } else {
        Ok(named_import(word, next, options))
    }
}

// What is to be done with orders: `unseen` has a number, and nothing else has an option.
fn named_task(task: &[u8], options: &[Vec<u8>]) -> Result<Option<Command>, AllocError>
    ensures { IfOk result (λ command. command ≡ task_named task.now (bytes_of options.now)) }
{
    match options {
        [] => Ok(task_alone(task)),
        [runs] if task == b"unseen".as_slice() => unseen(runs.as_slice()),
        _ => Ok(None),
    }
}

fn task_alone(task: &[u8]) -> Option<Command>
    ensures { result ≡ task_alone task.now }
{
    if task == b"judge".as_slice() {
        Some(Command::Run(Machine::Judge))
    } else if task == b"merge".as_slice() {
        Some(Command::Run(Machine::Merge(Shown::Merged)))
    } else if task == b"text".as_slice() {
        Some(Command::Run(Machine::Merge(Shown::Text)))
    } else {
        None
    }
}

fn unseen(runs: &[u8]) -> Result<Option<Command>, AllocError>
    ensures { IfOk result (λ command. command ≡ unseen_within (number_of 4294967296 runs.now)) }
{
    match number_of(u32::MAX, runs) {
        Ok(runs) => Ok(Some(Command::Run(Machine::Merge(Shown::Unseen(runs))))),
        Err(LineError::Bad(_)) => Ok(None),
        Err(LineError::Memory) => Err(AllocError),
    }
}

fn named_import(word: &[u8], source: &[u8], options: &[Vec<u8>]) -> Option<Command>
    ensures { result ≡ import_named word.now source.now (bytes_of options.now) }
{
    if word != b"import".as_slice() {
        return None;
    }
    match named_source(source, options) {
        Some(source) => Some(Command::Run(Machine::Import(source))),
        None => None,
    }
}

fn named_source(source: &[u8], options: &[Vec<u8>]) -> Option<Source>
    ensures { result ≡ source_named source.now (bytes_of options.now) }
{
    if source == b"plain".as_slice() {
        alone(Source::Plain, options)
    } else if source == b"lttng".as_slice() {
        alone(Source::Lttng, options)
    } else if source == b"ftrace".as_slice() {
        ftrace(options)
    } else {
        None
    }
}

// That of ftrace, with its options.
fn ftrace(options: &[Vec<u8>]) -> Option<Source>
    ensures { result ≡ ftrace_by (bytes_of options.now) }
{
    let whole = Encoding {
        interrupts: true,
        readers: true,
    };
    match encoding(whole, options) {
        Some(encoding) => Some(Source::Ftrace(encoding)),
        None => None,
    }
}

// A source that has no options.
fn alone(source: Source, options: &[Vec<u8>]) -> Option<Source>
    ensures { result ≡ alone source (bytes_of options.now) }
{
    match options {
        [] => Some(source),
        _ => None,
    }
}

// What the options make of this; the last one of several counts.
fn encoding(before: Encoding, options: &[Vec<u8>]) -> Option<Encoding>
    ensures { result ≡ encoding_by before (bytes_of options.now) }
{
    match options {
        [] => Some(before),
        [option, others @ ..] => match with_option(before, option.as_slice()) {
            Some(next) => encoding(next, others),
            None => None,
        },
    }
}

fn with_option(before: Encoding, option: &[u8]) -> Option<Encoding>
    ensures { result ≡ with_option before option.now }
{
    match choice_of(option) {
        Some(choice) => Some(with_choice(before, choice)),
        None => None,
    }
}

fn with_choice(before: Encoding, choice: Choice) -> Encoding
    ensures { result ≡ with_choice before choice }
{
    let Encoding {
        interrupts,
        readers,
    } = before;
    match choice {
        Choice::Interrupts(interrupts) => Encoding {
            interrupts,
            readers,
        },
        Choice::Readers(readers) => Encoding {
            interrupts,
            readers,
        },
    }
}

fn choice_of(word: &[u8]) -> Option<Choice>
    ensures { result ≡ choice_named word.now }
{
    if word == b"--irq".as_slice() {
        Some(Choice::Interrupts(true))
    } else if word == b"--no-irq".as_slice() {
        Some(Choice::Interrupts(false))
    } else if word == b"--readers".as_slice() {
        Some(Choice::Readers(true))
    } else if word == b"--no-readers".as_slice() {
        Some(Choice::Readers(false))
    } else {
        None
    }
}

// What one word asks for that stands alone.
fn asked_alone(alloc: Global, words: &[Vec<u8>]) -> Result<Option<Command>, AllocError>
    ensures { IfOk result (λ command. command ≡ asked_alone (bytes_of words.now)) }
{
    match only_text(words) {
        Some(word) => command_of(alloc, &["witness", word]),
        None => Ok(None),
    }
}

// The only word, where it is a text: all that asks for something is.
fn only_text(words: &[Vec<u8>]) -> Option<&str>
    ensures text { IfSome result (λ word. bytes_of words.now ≡ word.now ∷ []) }
    ensures none { IfNone result (asked_alone (bytes_of words.now) ≡ None) }
{
    match words {
        [word] => str::from_utf8(word.as_slice()).ok(),
        _ => None,
    }
}

// What clap reads from the words of a command line, of which the first is the program's name.
fn command_of<'a, S: AsStr>(alloc: Global, words: &'a [S]) -> Result<Option<Command>, AllocError>
    ensures { IfOk result (λ command. command
        ≡ option_named (only_word (map S.text words.entry.now))) }
{
    if words.len() != 2 {
        return Ok(None);
    }
    match asked_word(alloc, words) {
        Ok(Some(word)) => Ok(named_command(word)),
        Ok(None) => Ok(None),
        Err(error) => match error.kind() {
            ErrorKind::OutOfMemory => Err(AllocError),
            _ => Ok(None),
        },
    }
}

fn asked_word<'a, S: AsStr>(alloc: Global, words: &'a [S]) -> Result<Option<&'a str>, Error>
    ensures word { IfOk result (λ word. option_map (λ s. s.now) word
        ≡ first_of (codes "word") (matches_of command_line (map S.text words.entry.now))) }
    ensures memory { IfErr result (λ e. takes command_line (map S.text words.entry.now) ≡ true
        → kind_of e ≡ ErrorKind.OutOfMemory) }
{
    let word = Arg::new(alloc, "word")
        .required(true)
        .action(ArgAction::Set);
    let command = clap::Command::new(alloc, "witness")
        .disable_help_flag(true)
        .arg(word)?;
    let matches = command.try_get_matches_from(words)?;
    Ok(matches.get_str("word"))
}

fn named_command(word: &str) -> Option<Command>
    ensures { result ≡ command_named word.now }
{
    match word {
        "replay" => Some(Command::Run(Machine::Show(View::Reports))),
        "graph" => Some(Command::Run(Machine::Show(View::Graph))),
        "locks" => Some(Command::Run(Machine::Show(View::Locks))),
        "circle" => Some(Command::Run(Machine::Show(View::Circle))),
        "state" => Some(Command::Run(Machine::Show(View::State))),
        "clean" => Some(Command::Run(Machine::Show(View::Clean))),
        "migrate" => Some(Command::Run(Machine::Migrate)),
        "forecast" => Some(Command::Run(Machine::Forecast)),
        "grade" => Some(Command::Run(Machine::Grade)),
        "findings" => Some(Command::Run(Machine::Find)),
        "html" => Some(Command::Write(Form::Html)),
        "sarif" => Some(Command::Write(Form::Sarif)),
        "text" => Some(Command::Write(Form::Text)),
        "dot" => Some(Command::Write(Form::Dot)),
        "pictures" => Some(Command::Write(Form::Pictures)),
        "demo" => Some(Command::Demo),
        _ => None,
    }
}
