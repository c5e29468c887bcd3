//! A law of the lines: a function that is a theorem, and does nothing.

ghost use Rattle.wit_grades.specs.Spelling.{ReadsSpellings};

/// A line is read as what it spells, and spells nothing else.
pub fn law_grade_lines_are_spelled()
    ensures { ReadsSpellings }
{}
