//! The known orders, as a graph.

ghost use Rattle.std.specs.Prelude.{◌≡◌, ◌<◌, ◌++◌, length, string_bytes, IfOk, IfErr, OnOk, OnErr};
ghost use Rattle.wit_model.specs.Rules.State.{known_of};
ghost use Rattle.wit_model.specs.Trace.Views.{edge_line, edge_lines, graph_text};
ghost use Rattle.wit_report.specs.Wants.{WantsMemory};

use crate::orders::type_words;
use crate::pieces::put_quoted;
use std::alloc::{AllocError, Global};
use wit_core::Verifier;
use wit_model::{Fault, TypeNo};

/// The direct orders, a line each, as `"PARENT","CHILD"`, by the parent's number, then by the
/// child's: what the sysctl `debug.witness.fullgraph` (subr_witness.c) writes of the same relation.
///
/// # Errors
/// `OutOfMemory` alone, and only where the text isn't empty.
pub fn graph(alloc: Global, verifier: &Verifier) -> Result<String, Fault>
    ensures ok { IfOk result (λ text. string_bytes text ≡ graph_text verifier.now) }
    ensures err { IfErr result (WantsMemory (graph_text verifier.now)) }
{
    let mut text = String::new(alloc);
    put_graph(&mut text, verifier)?;
    Ok(text)
}

fn put_graph(text: &mut String, verifier: &Verifier) -> Result<(), AllocError>
    ensures ok { OnOk result (string_bytes text.new ≡ string_bytes text.old
        ++ graph_text verifier.now) }
    ensures err { OnErr result (0 < length (graph_text verifier.now)) }
{
    for place in 0..verifier.types() {
        put_edges(text, verifier, TypeNo(place as u16 + 1))?;
    }
    Ok(())
}

// The orders that go from one type, by the children's numbers.
fn put_edges(text: &mut String, verifier: &Verifier, parent: TypeNo) -> Result<(), AllocError>
    ensures ok { OnOk result (string_bytes text.new ≡ string_bytes text.old
        ++ edge_lines (known_of verifier.now.start verifier.now.history) parent.0) }
    ensures err { OnErr result
        (0 < length (edge_lines (known_of verifier.now.start verifier.now.history) parent.0)) }
{
    for place in 0..verifier.types() {
        let child = TypeNo(place as u16 + 1);
        if verifier.is_direct(parent, child) {
            put_edge(text, verifier, parent, child)?;
        }
    }
    Ok(())
}

fn put_edge(
    text: &mut String,
    verifier: &Verifier,
    parent: TypeNo,
    child: TypeNo,
) -> Result<(), AllocError>
    ensures { OnOk result (string_bytes text.new ≡ string_bytes text.old
        ++ edge_line (known_of verifier.now.start verifier.now.history) parent.0 child.0) }
{
    put_quoted(text, type_words(verifier, parent))?;
    text.push(',')?;
    put_quoted(text, type_words(verifier, child))?;
    text.push('\n')?;
    Ok(())
}
