//! Laws of canonical texts: functions of no parameters, whose contracts speak of the definitions alone.
ghost use Rattle.std.specs.Prelude.{◌≡◌, ◌≤◌, ◌↔◌, ◌∷◌, [], ◌++◌, codes};
ghost use Rattle.tlb_syntax.specs.Tree.{ConstructorView};
ghost use Rattle.tlb_syntax.specs.Text.{constructor_text};
ghost use Rattle.tlb_syntax.specs.Written.{Writes};
ghost use Rattle.tlb_grammar.specs.Canonical.{constructor_levels, IsWritten};

use tlb_lexer::laws::{at_most_one, signs_stand_alone};

/// The canonical text of a constructor that some text writes, with a semicolon after it, writes that constructor
/// exactly where it opens at most 64 levels.
pub fn canonical_text()
    ensures { (c : ConstructorView) → IsWritten c
        → (constructor_levels c ≤ 64 ↔ Writes (constructor_text c ++ codes ";") (c ∷ [])) }
{
    at_most_one();
    signs_stand_alone();
}

/// Constructors of one canonical text are the same, whatever levels it opens.
pub fn one_of_a_text()
    ensures { (a b : ConstructorView) → IsWritten a → IsWritten b
        → constructor_text a ≡ constructor_text b → a ≡ b }
{
    at_most_one();
    signs_stand_alone();
}
