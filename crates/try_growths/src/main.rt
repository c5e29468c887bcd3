//! Makes the calls of a trace one after the other, and again where one was refused for want of
//! memory: it then tells whether the verifier shows what it showed before. It reads the file
//! `trace`; `tools/try-growths` refuses each growth in turn. With the word `prepare` checks and
//! defined orders are prepared first. With the word `release` it goes on from a refusal by the
//! release of all that is held. With the word `clean` it makes the calls once, and tells whether
//! they leave a clean log: `tools/try-clean` compares that.
#![tactic(auto)]

mod acts;
mod cleanness;
mod lines;
mod start;
mod sums;
mod tries;

use crate::cleanness::tell_clean;
use crate::start::start;
use crate::tries::{Tries, say};
use std::alloc::Global;
use std::fs;
use std::io::Write;
use std::rt::Env;
use wit_core::Verifier;
use wit_model::Fault;

fn main(rt: HostRuntime) {
    let alloc = rt.alloc();
    let mut output = rt.stdout();
    let word = first_letter(&rt);
    let text = match fs::read_to_string(&rt, "trace") {
        Ok(text) => Some(text),
        Err(_) => {
            say(&mut output, "refused: reading, kept");
            fs::read_to_string(&rt, "trace").ok()
        }
    };
    let Some(text) = text else {
        say(&mut output, "no trace");
        return;
    };
    match started(alloc, &mut output, &text) {
        Ok(verifier) if word == Some(b'c') => tell_clean(alloc, verifier, &mut output, &text),
        Ok(verifier) => {
            let mut tries = Tries {
                alloc,
                verifier,
                output,
                prepares: word == Some(b'p'),
                sums: word.is_some(),
                releases: word == Some(b'r'),
            };
            tries.run(&text);
        }
        Err(fault) => {
            let _ = writeln!(output, "no start: {fault}");
        }
    }
}

// The letter with which the first word begins.
fn first_letter<R: Env>(rt: &R) -> Option<u8> {
    let mut room = [0u8; 16];
    match rt.arg(1, &mut room) {
        Ok(_) => Some(room[0]),
        Err(_) => None,
    }
}

// The verifier that the trace asks for: nothing is left of one that was refused.
fn started<W: Write>(alloc: Global, output: &mut W, text: &str) -> Result<Verifier, Fault> {
    match start(alloc, text) {
        Err(Fault::OutOfMemory) => {
            say(output, "refused: a start, kept");
            start(alloc, text)
        }
        answer => answer,
    }
}
