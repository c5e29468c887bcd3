//! What is shown of a trace.

/// What is shown of a trace. The text of a bad line is shown whatever it is.
#[derive(Clone, Copy, Debug, PartialEq, Eq)]
pub enum View {
    /// The texts of the reports, failed assertions and warnings, as they come.
    Reports,
    /// The direct orders, after the whole trace.
    Graph,
    /// The held locks, after the whole trace.
    Locks,
    /// A circle of waiting seats, after the whole trace.
    Circle,
    /// The texts of `Reports`, and after the whole trace what is known then (`wit_state::state_text`).
    State,
    /// Whether the log is clean, after the whole trace, and if not, what keeps it from that.
    Clean,
}
