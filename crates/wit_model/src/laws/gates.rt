//! The law of a gate's word. The function is a theorem, and does nothing.

ghost use Rattle.wit_model.specs.Gates.{WordsAddUp};

/// A gate's word is the sum of what is out, where a share is worth 1 and an exclusive hold all.
pub fn law_gate_words_add_up()
    ensures { WordsAddUp }
{}
