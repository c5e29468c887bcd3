//! What the demonstration writes.

ghost use Rattle.std.specs.Prelude.{◌≡◌, ◌++◌, reverse, string_bytes, Err, IfOk, IfErr, OnOk, OnErr};
ghost use Rattle.std.specs.Io.KnownBytes.{Appends};
ghost use Rattle.wit_model.specs.Rules.Step.{IsLegal};
ghost use Rattle.wit_stream.specs.declared.summary.ReplayError.TheVariants.{Write};
ghost use Rattle.wit_stream.specs.Stream.{AppendsFront};
ghost use Rattle.wit_demo.specs.Demonstration.{count_line, demo_text, reports_text, sum_of};
ghost use Rattle.wit_demo.specs.Demonstration.{StopsAt};

use std::alloc::{AllocError, Global};
use std::io::Write;
use wit_core::Verifier;
use wit_model::Fault;
use wit_report::report_text;
use wit_stream::{Failures, Ports, ReplayError, Summary};

/// Writes the reports of a log, and how many calls, orders and reports there were.
///
/// # Errors
/// `Memory`, with nothing written; `Write` where the writer fails, with a beginning written.
pub(crate) fn tell<W: Write>(
    alloc: Global,
    verifier: &Verifier,
    output: &mut W,
) -> Result<Summary, ReplayError>
    ensures legal { IsLegal verifier.now.start verifier.now.files verifier.now.history }
    ensures sum { IfOk result (λ summary. summary ≡ sum_of verifier.now) }
    ensures written { IfOk result (λ _. Appends (W.contents output.old) (W.contents output.new)
        (demo_text verifier.now)) }
    ensures err { IfErr result
        (StopsAt verifier.now (W.contents output.old) (W.contents output.new)) }
{
    let log = verifier.history();
    let Ok(text) = demo_text(alloc, verifier) else {
        return Err(ReplayError::Memory);
    };
    write_text(output, text.as_bytes())?;
    Ok(Summary {
        calls: log.len() as u64,
        reports: verifier.reports() as u64,
        circle: false,
        bad: None,
    })
}

// Writes a text, and flushes it.
fn write_text<W: Write>(output: &mut W, text: &[u8]) -> Result<(), ReplayError>
    ensures ok { OnOk result (Appends (W.contents output.old) (W.contents output.new) text.now) }
    ensures err { OnErr result
        (AppendsFront (W.contents output.old) (W.contents output.new) text.now) }
    ensures only { OnErr result (result ≡ Err Write) }
{
    let mut failures = Failures::new();
    <Failures as Ports<&[u8], W>>::put(&mut failures, output, text)
}

// The reports, and the counts.
fn demo_text(alloc: Global, verifier: &Verifier) -> Result<String, Fault>
    ensures { IfOk result (λ text. string_bytes text ≡ demo_text verifier.now) }
{
    let mut text = String::new(alloc);
    put_reports(&mut text, alloc, verifier)?;
    put_count(&mut text, alloc, "calls ", verifier.history().len() as u64)?;
    put_count(&mut text, alloc, "orders ", verifier.orders().len() as u64)?;
    put_count(&mut text, alloc, "reports ", verifier.reports() as u64)?;
    Ok(text)
}

// The reports of the log.
fn put_reports(text: &mut String, alloc: Global, verifier: &Verifier) -> Result<(), Fault>
    ensures { OnOk result (string_bytes text.new ≡ string_bytes text.old
        ++ reports_text verifier.now (reverse verifier.now.history)) }
{
    for entry in verifier.history() {
        let report = report_text(alloc, verifier, &entry.reply)?;
        text.push_str(&report)?;
    }
    Ok(())
}

// A line with a number.
fn put_count(text: &mut String, alloc: Global, of: &str, count: u64) -> Result<(), AllocError>
    ensures { OnOk result (string_bytes text.new ≡ string_bytes text.old
        ++ count_line of.now count) }
{
    text.push_str(of)?;
    let digits = count.to_string(alloc)?;
    text.push_str(&digits)?;
    text.push('\n')
}
