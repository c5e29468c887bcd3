//! The program `acyclic`: checks a certificate that orders have no circle, which it reads from
//! standard input.
#![tactic(auto)]

mod complaints;
mod program;
mod words;

use crate::complaints::{fail, refuse};
use crate::program::run;
use crate::words::has_words;
use std::process::ExitCode;

fn main(rt: HostRuntime) -> ExitCode {
    let (mut output, mut complaints) = (rt.stdout(), rt.stderr());
    if has_words(&rt) {
        return ExitCode::from(refuse(&mut complaints));
    }
    ExitCode::from(match run(rt.alloc(), rt.reader(), &mut output) {
        Ok(status) => status,
        Err(error) => fail(&mut complaints, &error),
    })
}
