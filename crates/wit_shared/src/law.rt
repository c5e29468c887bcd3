//! What a closed log adds up to.

ghost use Rattle.wit_shared.specs.Closing.{ClosedLogsAddUp};

/// The log of a closed verifier is as long as the lists of its seats together. It does nothing.
pub fn law_closed_logs_add_up()
    ensures { ClosedLogsAddUp }
{}
