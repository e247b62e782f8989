//! What a word for a type is answered with.
ghost use Rattle.std.specs.Prelude.{◌≡◌, ◌≤◌, Err, IfOk, Ok, length, option_map};
ghost use Rattle.closed_type.specs.View.{closed_type};
ghost use Rattle.tlb_syntax.specs.Tree.{SchemaView};
ghost use Rattle.tlb_syntax.specs.View.{expr};
ghost use Rattle.type_index.specs.Index.{IsTypeIndex, kinds_at};
ghost use Rattle.type_closing.specs.Views.{fault_by};
ghost use Rattle.type_word.specs.InSchema.{kinds_of};
ghost use Rattle.type_word.specs.Resolving.{Answers, IfResolved, fault_error, grammar_error, resolved as answered};
ghost use Rattle.type_word.specs.Resolving.{token_error as error_of_token};

use crate::error::TypeError;
use crate::signs::{places_of, refused_sign};
use bit_slice::Name;
use closed_type::{ClosedType, MOST_NODES};
use std::alloc::Global;
use tlb_grammar::{GrammarError, read_type};
use tlb_lexer::LexError;
use tlb_lexer::laws::at_most_one;
use tlb_memory::NoMemory;
use tlb_syntax::Expr;
use type_closing::{Fault, close_word, fault_in};
use type_index::TypeIndex;

fn token_error(error: LexError) -> TypeError
    ensures { result ≡ error_of_token error }
{
    match error {
        LexError::BadCharacter(place)
        | LexError::OpenComment(place)
        | LexError::TooLongName(place) => TypeError::TypeSyntax(place),
        LexError::NoMemory => TypeError::NoMemory,
    }
}

pub(crate) fn word_error(error: GrammarError) -> TypeError
    ensures { result ≡ grammar_error error }
{
    match error {
        GrammarError::Lex(error) => token_error(error),
        GrammarError::Syntax(place)
        | GrammarError::DeepType(place)
        | GrammarError::TooManyConstructors(place)
        | GrammarError::TooManyFields(place)
        | GrammarError::TooManyParams(place) => TypeError::TypeSyntax(place),
        GrammarError::NoMemory => TypeError::NoMemory,
    }
}

fn copy_holder(alloc: Global, holder: Option<&Name>) -> Result<Option<Name>, NoMemory>
    ensures { IfOk result (λ name. name ≡ option_map (λ x. x.now) holder.entry) }
{
    match holder {
        None => Ok(None),
        Some(name) => Ok(Some(name.copy(alloc)?)),
    }
}

fn error_of(alloc: Global, fault: Fault<'_>) -> Result<TypeError, NoMemory>
    ensures { IfOk result (λ error. error ≡ fault_error (fault_by fault.entry)) }
{
    match fault {
        Fault::UnknownType(name) => Ok(TypeError::UnknownType(name.copy(alloc)?)),
        Fault::Arity(name) => Ok(TypeError::Arity(name.copy(alloc)?)),
        Fault::Output(name) => Ok(TypeError::Output(name.copy(alloc)?)),
        Fault::KindMismatch(holder) => Ok(TypeError::KindMismatch(copy_holder(alloc, holder)?)),
        Fault::TooWide => Ok(TypeError::TooWide),
    }
}

// The answer for an expression whose signs stand at these places.
#[tactic(auto, using(crate::proofs::Answering::signed, crate::proofs::Answering::faulted, crate::proofs::Answering::too_big, crate::proofs::Answering::closes))]
fn resolve_expr(
    alloc: Global,
    types: &TypeIndex,
    e: &Expr,
    places: &[u64],
) -> Result<ClosedType, TypeError>
    ensures { let answer = answered (kinds_at types.now) places.now (expr e.now) in
        IfResolved result (λ t. Ok (closed_type t) ≡ answer) (λ error. Err error ≡ answer) }
{
    if let Some(place) = refused_sign(e, places) {
        return Err(TypeError::TypeSyntax(place));
    }
    if let Some(fault) = fault_in(types, e) {
        return Err(error_of(alloc, fault)?);
    }
    let closed = close_word(alloc, e)?;
    if closed.counted(0) > MOST_NODES {
        return Err(TypeError::BigType);
    }
    Ok(closed)
}

/// The closed type that a word of at most 1,048,576 bytes names in the schema of the index, or its first refusal: what its
/// grammar or a sign refuses at its place, then the first fault of a name or a number, and last too large a type.
pub fn resolve(alloc: Global, types: &TypeIndex, word: &str) -> Result<ClosedType, TypeError>
    requires { length word.now ≤ 1048576 }
    ensures answer { Answers (kinds_at types.now) word.now result }
    // And so, with the index of a schema, what the word is answered with in the schema.
    ensures schema { (s : SchemaView) → IsTypeIndex types.now s → Answers (kinds_of s) word.now result }
{
    let e = match read_type(alloc, word) {
        Ok(e) => e,
        Err(error) => return Err(word_error(error)),
    };
    at_most_one();
    let places = places_of(alloc, word.as_bytes())?;
    resolve_expr(alloc, types, &e, places.as_slice())
}
