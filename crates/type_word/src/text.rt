//! The text that a word for a type is shown by.
ghost use Rattle.std.specs.Prelude.{◌≡◌, ◌≤◌, length};
ghost use Rattle.tlb_syntax.specs.Text.{expr_text};
ghost use Rattle.tlb_syntax.specs.Tree.{ExprView};
ghost use Rattle.tlb_syntax.specs.Written.{WritesWord};
ghost use Rattle.tlb_grammar.specs.Answer.{RefusesWord};
ghost use Rattle.tlb_grammar.specs.declared.error.GrammarError.{GrammarError as Refused};
ghost use Rattle.type_word.specs.Resolving.{IfResolved, grammar_error};

use crate::error::TypeError;
use crate::word::word_error;
use std::alloc::Global;
use tlb_grammar::{read_type, show};

/// The canonical text of the expression that a word of at most 1,048,576 bytes writes: a place outside of all
/// constructors is shown by it, as `(Maybe uint8)`. Where its grammar refuses the word, the refusal is that of
/// `resolve`.
pub fn shown(alloc: Global, word: &str) -> Result<Vec<u8>, TypeError>
    requires { length word.now ≤ 1048576 }
    ensures written { (e : ExprView) → WritesWord word.now e
        → IfResolved result (λ text. text.items ≡ expr_text e) (λ _. ⊥) }
    ensures refused { (g : Refused) → RefusesWord word.now g
        → IfResolved result (λ _. ⊥) (λ error. error ≡ grammar_error g) }
{
    match read_type(alloc, word) {
        Ok(e) => Ok(show(alloc, &e)?),
        Err(error) => Err(word_error(error)),
    }
}
