//! Which types lead to which by the requests of a trace.

use crate::requests::Request;
use std::alloc::{AllocError, Global};
use wit_core::Verifier;
use wit_model::TypeNo;

/// Whether requests lead from one type to another: each asks for the next type behind the one before.
///
/// # Errors
/// Want of memory alone.
pub fn leads(
    alloc: Global,
    verifier: &Verifier,
    requests: &[Request],
    from: TypeNo,
    to: TypeNo,
) -> Result<bool, AllocError> {
    let mut reached = Vec::new(alloc);
    reached.push(from)?;
    for _ in 0..=verifier.types() {
        let before = reached.len();
        for request in requests {
            reach(verifier, request, &mut reached)?;
        }
        if reached.contains(&to) && from != to {
            return Ok(true);
        }
        if reached.len() == before {
            break;
        }
    }
    Ok(reached.contains(&to))
}

// A type that is asked for behind one that was reached is reached too.
fn reach(
    verifier: &Verifier,
    request: &Request,
    reached: &mut Vec<TypeNo>,
) -> Result<(), AllocError> {
    let Some(asked) = verifier.type_of(request.lock) else {
        return Ok(());
    };
    let is_behind = request.had.iter().any(|share| match verifier.type_of(share.lock) {
        Some(held) => reached.contains(&held),
        None => false,
    });
    if is_behind && !reached.contains(&asked) {
        reached.push(asked)?;
    }
    Ok(())
}
