//! Reading of schemas and type words.
ghost use Rattle.std.specs.Prelude.{◌≡◌, ◌≤◌, ⊤, length};
ghost use Rattle.tlb_lexer.specs.Tokenization.{Tokenizes};
ghost use Rattle.tlb_syntax.specs.Grammar.{Declarations, TypeWord};
ghost use Rattle.tlb_syntax.specs.Lexeme.{lexemes};
ghost use Rattle.tlb_syntax.specs.Limits.{IsWithinLimits, IsWordWithinLimits};
ghost use Rattle.tlb_syntax.specs.Tree.{SchemaView, ExprView};
ghost use Rattle.tlb_syntax.specs.View.{schema, expr};
ghost use Rattle.tlb_syntax.specs.Written.{WithinCounts, Writes, WritesWord, byte_of, standard};
ghost use Rattle.tlb_grammar.specs.Answer.{IfRead, Refuses, RefusesWord, error_of, reads_error};
ghost use Rattle.tlb_grammar.specs.declared.error.GrammarError.{GrammarError as Refused};

use crate::build::{build_schema, build_word};
use crate::error::GrammarError;
use std::alloc::Global;
use syntax_check::laws::one_answer;
use syntax_check::{Cause, Refusal, check_schema, check_word};
use tlb_lexer::laws::{at_most_one, in_order};
use tlb_lexer::{LexError, Token, tokens};
use tlb_syntax::laws::{word_within_limits, written_within_limits};
use tlb_syntax::{Expr, Schema};

// The byte at which the token with so many tokens before it begins, or the text's length.
fn byte_of(text: &[u8], tokens: &[Token], place: u32) -> u64
    ensures { result ≡ byte_of tokens.now (length text.now) place }
{
    match tokens.get(place as usize) {
        Some(token) => u64::from(token.from),
        None => text.len() as u64,
    }
}

fn refusal_at(text: &[u8], tokens: &[Token], refusal: Refusal) -> GrammarError
    ensures { result ≡ error_of refusal.cause (byte_of tokens.now (length text.now) refusal.place) }
{
    let byte = byte_of(text, tokens, refusal.place);
    match refusal.cause {
        Cause::Syntax => GrammarError::Syntax(byte),
        Cause::DeepType => GrammarError::DeepType(byte),
        Cause::TooManyConstructors => GrammarError::TooManyConstructors(byte),
        Cause::TooManyFields => GrammarError::TooManyFields(byte),
        Cause::TooManyParams => GrammarError::TooManyParams(byte),
    }
}

fn refused_token(error: LexError) -> GrammarError
    ensures { result ≡ reads_error error }
{
    match error {
        LexError::NoMemory => GrammarError::NoMemory,
        LexError::BadCharacter(_) | LexError::OpenComment(_) | LexError::TooLongName(_) => {
            GrammarError::Lex(error)
        }
    }
}

// The tokens of a text that writes a schema.
fn tokens_of_schema(alloc: Global, text: &[u8]) -> Result<Vec<Token>, GrammarError>
    requires { length text.now ≤ 1048576 }
    ensures { IfRead result (λ ts. Tokenizes text.now ts.items × ((s : SchemaView)
        × Declarations standard (lexemes text.now ts.items) s × WithinCounts s)) (λ e. Refuses text.now e) }
{
    let tokens = match tokens(alloc, text) {
        Ok(tokens) => tokens,
        Err(error) => return Err(refused_token(error)),
    };
    match check_schema(alloc, text, &tokens)? {
        Some(refusal) => Err(refusal_at(text, &tokens, refusal)),
        None => Ok(tokens),
    }
}

// The tokens of a text that writes a type word.
fn tokens_of_word(alloc: Global, text: &[u8]) -> Result<Vec<Token>, GrammarError>
    requires { length text.now ≤ 1048576 }
    ensures { IfRead result (λ ts. Tokenizes text.now ts.items × ((e : ExprView)
        × TypeWord standard (lexemes text.now ts.items) e)) (λ e. RefusesWord text.now e) }
{
    let tokens = match tokens(alloc, text) {
        Ok(tokens) => tokens,
        Err(error) => return Err(refused_token(error)),
    };
    match check_word(alloc, text, &tokens)? {
        Some(refusal) => Err(refusal_at(text, &tokens, refusal)),
        None => Ok(tokens),
    }
}

fn schema_of(alloc: Global, text: &[u8]) -> Result<Schema, GrammarError>
    requires { length text.now ≤ 1048576 }
    ensures { IfRead result (λ s. Writes text.now (schema s)) (λ e. Refuses text.now e) }
{
    in_order();
    let tokens = tokens_of_schema(alloc, text)?;
    let schema = build_schema(alloc, text, &tokens)?;
    Ok(schema)
}

fn word_of(alloc: Global, word: &str) -> Result<Expr, GrammarError>
    requires { length word.now ≤ 1048576 }
    ensures { IfRead result (λ e. WritesWord word.now (expr e)) (λ e. RefusesWord word.now e) }
{
    let text = word.as_bytes();
    in_order();
    let tokens = tokens_of_word(alloc, text)?;
    let expr = build_word(alloc, text, &tokens)?;
    Ok(expr)
}

/// The schema that a text of at most 1,048,576 bytes writes, or its first refusal.
pub fn read_schema(alloc: Global, text: &[u8]) -> Result<Schema, GrammarError>
    requires { length text.now ≤ 1048576 }
    // What is answered holds of the text.
    ensures holds { IfRead result (λ s. Writes text.now (schema s)) (λ e. Refuses text.now e) }
    // The schema that the text writes is answered, unless memory runs out.
    ensures written { (s : SchemaView) → Writes text.now s → IfRead result (λ found. schema found ≡ s) (λ _. ⊥) }
    // The refusal of the text is answered, unless memory runs out.
    ensures refused { (e : Refused) → Refuses text.now e → IfRead result (λ _. ⊥) (λ found. found ≡ e) }
    // What is answered is within the limits of a schema.
    ensures limits { IfRead result (λ s. IsWithinLimits (schema s)) (λ _. ⊤) }
{
    at_most_one();
    one_answer();
    written_within_limits();
    schema_of(alloc, text)
}

/// The expression that a type word of at most 1,048,576 bytes writes, or its first refusal.
pub fn read_type(alloc: Global, word: &str) -> Result<Expr, GrammarError>
    requires { length word.now ≤ 1048576 }
    ensures holds { IfRead result (λ e. WritesWord word.now (expr e)) (λ e. RefusesWord word.now e) }
    ensures written { (e : ExprView) → WritesWord word.now e → IfRead result (λ found. expr found ≡ e) (λ _. ⊥) }
    ensures refused { (e : Refused) → RefusesWord word.now e → IfRead result (λ _. ⊥) (λ found. found ≡ e) }
    // What is answered is within the limits of a type word.
    ensures limits { IfRead result (λ e. IsWordWithinLimits (expr e)) (λ _. ⊤) }
{
    at_most_one();
    one_answer();
    word_within_limits();
    word_of(alloc, word)
}
