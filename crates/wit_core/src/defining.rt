//! What a call that defines an order is answered.

ghost use Rattle.std.specs.Prelude.{◌≡◌};
ghost use Rattle.wit_check.specs.Answers.{definition_of, IsDefinition};

use wit_check::Verdict;
use wit_model::{Fault, Reply};

/// The reply that tells a verdict on the defining of an order.
///
/// # Errors
/// The verdict's fault.
pub fn defined(verdict: Verdict) -> Result<Reply, Fault>
    requires { IsDefinition verdict }
    ensures { result ≡ definition_of verdict }
{
    match verdict {
        Verdict::Fault(fault) => Err(fault),
        Verdict::Adopt(parent, child) => Ok(Reply::Adopted(parent, child)),
        _ => Ok(Reply::Known),
    }
}
