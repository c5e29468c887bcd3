//! Laws of what lines tell. Each function is a theorem, and does nothing.

ghost use Rattle.wit_traced.specs.Examples.{LinesAreRead};

/// Some lines of each source, and what they tell.
pub fn law_lines_are_read()
    ensures { LinesAreRead }
{}
