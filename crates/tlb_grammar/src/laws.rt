//! Laws of the productions and of texts: functions of no parameters, whose contracts speak of the definitions alone.
ghost use Rattle.std.specs.Prelude.{◌≡◌, ◌⊎◌, ℕ, List};
ghost use Rattle.tlb_syntax.specs.Lexeme.{Lexeme};
ghost use Rattle.tlb_syntax.specs.Tree.{SchemaView, ExprView};
ghost use Rattle.tlb_syntax.specs.Grammar.{Bounds, Declarations, TypeWord};
ghost use Rattle.tlb_syntax.specs.Written.{Writes, WritesWord};
ghost use Rattle.tlb_grammar.specs.Answer.{Refuses, RefusesWord};
ghost use Rattle.tlb_grammar.specs.declared.error.GrammarError.{GrammarError};

use syntax_check::laws::{one_answer, some_answer};
use tlb_lexer::laws::{at_least_one, at_most_one};

/// Lexemes write one schema at most.
pub fn one_schema()
    ensures { (m : Bounds) (ls : List Lexeme) (s t : SchemaView) → Declarations m ls s → Declarations m ls t → s ≡ t }
{}

/// Lexemes write one expression at most, as a type word.
pub fn one_expression()
    ensures { (m : Bounds) (ls : List Lexeme) (e f : ExprView) → TypeWord m ls e → TypeWord m ls f → e ≡ f }
{}

/// Every text writes a schema or is refused; and likewise a type word.
pub fn written_or_refused()
    ensures schema { (text : List ℕ) → ((s : SchemaView) × Writes text s) ⊎ ((e : GrammarError) × Refuses text e) }
    ensures word { (text : List ℕ) → ((e : ExprView) × WritesWord text e) ⊎ ((e : GrammarError) × RefusesWord text e) }
{
    at_least_one();
    some_answer();
}

/// A text writes at most one schema, has at most one refusal, and not both; and likewise a type word.
pub fn at_most_one_answer()
    ensures written { (text : List ℕ) (s t : SchemaView) → Writes text s → Writes text t → s ≡ t }
    ensures refused { (text : List ℕ) (e f : GrammarError) → Refuses text e → Refuses text f → e ≡ f }
    ensures not_both { (text : List ℕ) (s : SchemaView) (e : GrammarError) → Writes text s → Refuses text e → ⊥ }
    ensures word_written { (text : List ℕ) (e f : ExprView) → WritesWord text e → WritesWord text f → e ≡ f }
    ensures word_refused { (text : List ℕ) (e f : GrammarError) → RefusesWord text e → RefusesWord text f → e ≡ f }
    ensures word_not_both { (text : List ℕ) (x : ExprView) (e : GrammarError)
        → WritesWord text x → RefusesWord text e → ⊥ }
{
    at_most_one();
    one_answer();
}
