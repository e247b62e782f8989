//! The tokens of a text gone through, one after another.
ghost use Rattle.std.specs.Prelude.{◌≡◌, [], IfOk, option_map};
ghost use Rattle.tlb_lexer.specs.Tokenization.{PlacedFrom};
ghost use Rattle.tlb_syntax.specs.Lexeme.{lexemes};
ghost use Rattle.tlb_syntax.specs.Tree.{SchemaView, ExprView};
ghost use Rattle.tlb_syntax.specs.View.{schema, expr};
ghost use Rattle.tlb_syntax.specs.Grammar.{Declarations, TypeWord};
ghost use Rattle.tlb_syntax.specs.Written.{standard};
ghost use Rattle.tlb_grammar.specs.Builder as plain;
ghost use Rattle.tlb_grammar.specs.Builder.{at};
ghost use Rattle.tlb_grammar.specs.Follows.{state, ArePlaced};

use crate::builder::Builder;
use crate::state::{OpenSum, ParserState};
use sqlite_items::Items;
use std::alloc::Global;
use tlb_lexer::Token;
use tlb_memory::NoMemory;
use tlb_syntax::{Expr, Schema, lexeme_at};

impl Builder {
    fn new(alloc: Global) -> Builder
        ensures { (result.below ≡ []) × (result.done ≡ []) }
    {
        Builder {
            alloc,
            below: Items::new(alloc),
            done: Items::new(alloc),
        }
    }

    // The schema that ends in the mode, if one may.
    fn schema(self, mode: ParserState) -> Option<Schema>
        ensures { option_map (λ s. s.constructors) result ≡ plain.schema_end (state mode self) }
    {
        match mode {
            ParserState::Start => Some(Schema {
                constructors: self.done,
            }),
            other => {
                drop(other);
                None
            }
        }
    }

    // The expression that ends in the mode, if one may.
    fn word(self, mode: ParserState) -> Result<Option<Expr>, NoMemory>
        ensures { IfOk result (λ found. found ≡ plain.word_end (state mode self)) }
    {
        match mode {
            ParserState::Applied(sum, name, args) => {
                let whole = sum.closed(self.alloc, Expr::Named(name, args))?;
                Ok(Some(whole))
            }
            ParserState::Operated(sum, e) => {
                let whole = sum.closed(self.alloc, e)?;
                Ok(Some(whole))
            }
            other => {
                drop(other);
                Ok(None)
            }
        }
    }
}

// The mode and what is begun after all tokens, or `None` where one of them can't come.
fn after_tokens(
    alloc: Global,
    text: &[u8],
    tokens: &[Token],
    start: ParserState,
) -> Result<Option<(ParserState, Builder)>, NoMemory>
    requires { ArePlaced text.now tokens.now }
    ensures { IfOk result (λ found. plain.run (at start [] []) (lexemes text.now tokens.now)
        ≡ option_map (λ p. state p.0 p.1) found) }
{
    let mut builder = Builder::new(alloc);
    let mut mode = start;
    'tokens: for token in tokens {
        match builder.step(mode, lexeme_at(text, token))? {
            Some(later) => mode = later,
            None => return Ok(None),
        }
    }
    Ok(Some((mode, builder)))
}

// The declarations that are built of the tokens.
pub(crate) fn schema_of(
    alloc: Global,
    text: &[u8],
    tokens: &[Token],
) -> Result<Option<Schema>, NoMemory>
    requires { PlacedFrom text.now 0 tokens.now }
    ensures { IfOk result (λ found. option_map (λ s. s.constructors) found
        ≡ plain.built_schema (lexemes text.now tokens.now)) }
{
    match after_tokens(alloc, text, tokens, ParserState::Start)? {
        Some((mode, builder)) => Ok(builder.schema(mode)),
        None => Ok(None),
    }
}

// The expression that is built of the tokens.
pub(crate) fn word_of(
    alloc: Global,
    text: &[u8],
    tokens: &[Token],
) -> Result<Option<Expr>, NoMemory>
    requires { PlacedFrom text.now 0 tokens.now }
    ensures { IfOk result (λ found. found ≡ plain.built_word (lexemes text.now tokens.now)) }
{
    let sum = OpenSum::new();
    match after_tokens(alloc, text, tokens, ParserState::Apply(sum))? {
        Some((mode, builder)) => builder.word(mode),
        None => Ok(None),
    }
}

/// The declarations that the tokens write.
pub fn build_schema(alloc: Global, text: &[u8], tokens: &[Token]) -> Result<Schema, NoMemory>
    requires placed { PlacedFrom text.now 0 tokens.now }
    requires written { (s : SchemaView) × Declarations standard (lexemes text.now tokens.now) s }
    ensures { IfOk result (λ r. (s : SchemaView) → Declarations standard (lexemes text.now tokens.now) s
        → schema r ≡ s) }
{
    let built = schema_of(alloc, text, tokens)?;
    match built {
        Some(found) => Ok(found),
        None => unreachable!(),
    }
}

/// The expression that the tokens write as a type word.
pub fn build_word(alloc: Global, text: &[u8], tokens: &[Token]) -> Result<Expr, NoMemory>
    requires placed { PlacedFrom text.now 0 tokens.now }
    requires written { (e : ExprView) × TypeWord standard (lexemes text.now tokens.now) e }
    ensures { IfOk result (λ r. (e : ExprView) → TypeWord standard (lexemes text.now tokens.now) e → expr r ≡ e) }
{
    let built = word_of(alloc, text, tokens)?;
    match built {
        Some(found) => Ok(found),
        None => unreachable!(),
    }
}
