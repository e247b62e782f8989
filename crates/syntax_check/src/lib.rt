//! Whether the tokens of a text write a schema or a type word, and else their first refusal.
#![tactic(auto)]

ghost use Rattle.std.specs.Prelude.{◌≡◌, ◌<◌, ◌^◌, length, IfOk, MatchOption};
ghost use Rattle.tlb_lexer.specs.Tokenization.{PlacedFrom};
ghost use Rattle.tlb_syntax.specs.Lexeme.{lexemes};
ghost use Rattle.tlb_syntax.specs.Grammar.{Declarations, TypeWord};
ghost use Rattle.tlb_syntax.specs.Tree.{ExprView, SchemaView};
ghost use Rattle.tlb_syntax.specs.Written.{standard, WithinCounts, IsFirst, SchemaRefusal, WordRefusal};
ghost use Rattle.syntax_check.specs.Judge.{go, position_at};
ghost use Rattle.syntax_check.specs.Verdict.{cause_of};
ghost use Rattle.syntax_check.specs.Judged.{reported_verdict, start_of, may_end};

mod freed;
mod judge;
pub mod laws;
mod machine;
mod modes;
mod step;

pub use judge::Refusal;
use judge::{Judge, Whole};
pub use machine::Cause;
use std::alloc::Global;
use tlb_lexer::Token;
use tlb_memory::NoMemory;
use tlb_syntax::lexeme_at;

fn check(
    alloc: Global,
    text: &[u8],
    tokens: &[Token],
    whole: Whole,
) -> Result<Option<Refusal>, NoMemory>
    requires placed { PlacedFrom text.now 0 tokens.now }
    requires short { length text.now < 2 ^ 32 }
    ensures { IfOk result (λ found. reported_verdict found
        ≡ go (may_end whole) (position_at standard (start_of whole)) (lexemes text.now tokens.now)) }
{
    let mut judge = Judge::new(alloc, whole);
    for token in tokens {
        let refused = judge.advance(lexeme_at(text, token))?;
        if refused.is_some() {
            return Ok(refused);
        }
    }
    Ok(judge.finish(whole))
}

/// The first refusal of the tokens of a text that is to be a schema. None: they write one.
pub fn check_schema(
    alloc: Global,
    text: &[u8],
    tokens: &[Token],
) -> Result<Option<Refusal>, NoMemory>
    requires placed { PlacedFrom text.now 0 tokens.now }
    requires short { length text.now < 2 ^ 32 }
    ensures { IfOk result (λ found. MatchOption found ((s : SchemaView)
        × Declarations standard (lexemes text.now tokens.now) s × WithinCounts s)
        (λ r. IsFirst (SchemaRefusal (lexemes text.now tokens.now)) (cause_of r.cause) r.place)) }
{
    check(alloc, text, tokens, Whole::Schema)
}

/// The first refusal of the tokens of a text that is to be a type word. None: they write one.
pub fn check_word(alloc: Global, text: &[u8], tokens: &[Token]) -> Result<Option<Refusal>, NoMemory>
    requires placed { PlacedFrom text.now 0 tokens.now }
    requires short { length text.now < 2 ^ 32 }
    ensures { IfOk result (λ found. MatchOption found ((e : ExprView)
        × TypeWord standard (lexemes text.now tokens.now) e)
        (λ r. IsFirst (WordRefusal (lexemes text.now tokens.now)) (cause_of r.cause) r.place)) }
{
    check(alloc, text, tokens, Whole::Word)
}
