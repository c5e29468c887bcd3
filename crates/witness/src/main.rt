//! The program `witness`: reads a trace of lock calls from standard input, and reports on it, or
//! demonstrates the verifier.
#![tactic(auto)]

mod command;
mod command_line;
mod complaints;
mod demonstration;
mod documents;
mod machines;
mod program;
mod progress;
mod words;

use crate::complaints::fail;
use crate::demonstration::demonstrate;
use crate::program::{Ended, run};
use crate::progress::Progress;
use crate::words::{Process, words_of};
use std::io::IsTerminal;
use std::process::ExitCode;
use wit_stream::ReplayError;

fn main(rt: HostRuntime) -> ExitCode {
    let (mut output, mut notes, mut complaints) = (rt.stdout(), rt.stderr(), rt.stderr());
    let terminal = if complaints.is_terminal() {
        Some(rt.stderr())
    } else {
        None
    };
    let ended = match words_of(&Process(&rt), rt.alloc()) {
        Ok(words) => run(
            rt.alloc(),
            words.as_slice(),
            Progress::new(rt.reader(), terminal),
            &mut output,
            &mut notes,
            &mut complaints,
        ),
        Err(error) => Err(ReplayError::from(error)),
    };
    let status = match ended {
        Ok(Ended::Exits(status)) => Ok(status),
        Ok(Ended::ShowsThreads) => demonstrate(&rt, rt.alloc(), &mut output),
        Err(error) => Err(error),
    };
    ExitCode::from(match status {
        Ok(status) => status,
        Err(error) => fail(&mut complaints, &error),
    })
}
