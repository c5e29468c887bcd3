//! What goes to standard error: how the program is used, and why a check failed.

ghost use Rattle.std.specs.Prelude.{◌≡◌};

use std::io::Write;
use wit_orders::FAILED;
use wit_stream::ReplayError;

/// The exit status where the command line is no use of the program.
pub const BAD_USAGE: u8 = 2;

/// How the program is used.
pub const USAGE: &str = "usage: acyclic < CERTIFICATE

Reads lock types from standard input, one a line (CLASS \"TYPE\"), and orders of two types, as a file of orders has them
(CLASS \"TYPE\" > CLASS \"TYPE\"), each behind the lines of its types. Writes whether each order goes forward in the sequence
of the types, so that no type leads round to itself by them:
  acyclic: N types, N pairs   each goes forward
  line N: CAUSE               the first line with a flaw: backward, unknown type, listed twice, syntax, long, cut
Status: 0 acyclic, 1 an order goes backward, 2 bad usage, 3 a line has another flaw, 4 no memory, or reading or writing
failed.
";

/// Says how the program is used, and gives the status of bad usage. The status alone tells it where
/// nothing can be said.
pub fn refuse<W: Write>(complaints: &mut W) -> u8
    ensures { result ≡ 2 }
{
    let _ = complaints.write_all(USAGE.as_bytes());
    BAD_USAGE
}

/// Says why a check failed, and gives the status of a failure. The status alone tells it where
/// nothing can be said.
pub fn fail<W: Write>(complaints: &mut W, error: &ReplayError) -> u8
    ensures { result ≡ 4 }
{
    let _ = writeln!(complaints, "acyclic: {error}");
    FAILED
}
