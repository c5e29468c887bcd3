//! Orders between types, and those that are against others.

/// An order between two types, by their numbers from 0.
#[derive(Clone, Copy, Debug, PartialEq, Eq, Hash)]
pub struct Order {
    /// The type that was held.
    pub from: usize,
    /// The type that was asked for.
    pub to: usize,
}

/// An order that closes a circle with others.
#[derive(Debug, Drop)]
pub struct Against {
    /// The order.
    pub order: Order,
    /// The types by which the others lead from its second type back to its first: without the second,
    /// and the first comes last.
    pub way: Vec<usize>,
}
