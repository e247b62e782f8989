//! The words of a refusal's line.
ghost use Rattle.std.specs.Prelude.{◌≡◌, ◌≢◌, decimal, IfOk};
ghost use Rattle.bag_cells.specs.declared.error.BagError.TheVariants.{NoMemory as OutOfMemory};
ghost use Rattle.tlb_grammar.specs.declared.error.GrammarError.TheVariants as grammar;
ghost use Rattle.tlb_lexer.specs.declared.LexError.TheVariants as tokens;
ghost use Rattle.cli_refusals.specs.Lines.{bag_cause, grammar_cause, numbered, spaced, sum_text, token_cause};

use bag_cells::BagError;
use std::alloc::Global;
use tlb_grammar::GrammarError;
use tlb_lexer::LexError;
use tlb_memory::NoMemory;

/// Words, a space, and other words.
pub fn spaced(alloc: Global, first: &[u8], second: &[u8]) -> Result<Vec<u8>, NoMemory>
    ensures { IfOk result (λ text. text.items ≡ spaced first.now second.now) }
{
    let mut text = Vec::from_slice(alloc, first)?;
    text.extend_from_slice(b" ")?;
    text.extend_from_slice(second)?;
    Ok(text)
}

fn digits(alloc: Global, number: u64) -> Result<Vec<u8>, NoMemory>
    ensures { IfOk result (λ text. text.items ≡ decimal number) }
{
    let digits = format!(in alloc; "{number}")?;
    Ok(digits.into_bytes())
}

/// Words, a space, and a number.
pub fn numbered(alloc: Global, cause: &[u8], number: u64) -> Result<Vec<u8>, NoMemory>
    ensures { IfOk result (λ text. text.items ≡ numbered cause.now number) }
{
    spaced(alloc, cause, &digits(alloc, number)?)
}

/// Words.
pub fn words(alloc: Global, cause: &[u8]) -> Result<Vec<u8>, NoMemory>
    ensures { IfOk result (λ text. text.items ≡ cause.now) }
{
    let text = Vec::from_slice(alloc, cause)?;
    Ok(text)
}

// The eight digits of a sum.
fn sum_digits(alloc: Global, sum: u32) -> Result<Vec<u8>, NoMemory>
    ensures { IfOk result (λ text. text.items ≡ sum_text sum) }
{
    let digits = hex::encode(alloc, sum.to_be_bytes())?;
    Ok(digits.into_bytes())
}

fn sums(alloc: Global, kept: u32, computed: u32) -> Result<Vec<u8>, NoMemory>
    ensures { IfOk result (λ text. text.items ≡ bag_cause (BagError.BadSum kept computed)) }
{
    let first = spaced(alloc, b"BadSum", &sum_digits(alloc, kept)?)?;
    spaced(alloc, &first, &sum_digits(alloc, computed)?)
}

/// The cause of a bag's refusal, and its numbers.
pub fn bag_words(alloc: Global, error: BagError) -> Result<Vec<u8>, NoMemory>
    ensures words { IfOk result (λ text. text.items ≡ bag_cause error) }
    ensures memory { IfOk result (λ _. error ≢ OutOfMemory) }
{
    match error {
        BagError::BadHex(place) => numbered(alloc, b"BadHex", place),
        BagError::BadBase64 => words(alloc, b"BadBase64"),
        BagError::BadMagic => words(alloc, b"BadMagic"),
        BagError::Truncated(size) => numbered(alloc, b"Truncated", size),
        BagError::BadHeader(place) => numbered(alloc, b"BadHeader", place),
        BagError::TooManyCells(count) => numbered(alloc, b"TooManyCells", count),
        BagError::ManyRoots(count) => numbered(alloc, b"ManyRoots", count),
        BagError::AbsentCells(count) => numbered(alloc, b"AbsentCells", count),
        BagError::Trailing(place) => numbered(alloc, b"Trailing", place),
        BagError::BadSum(kept, computed) => sums(alloc, kept, computed),
        BagError::StoredHashes(cell) => numbered(alloc, b"StoredHashes", cell),
        BagError::BadCell(cell) => numbered(alloc, b"BadCell", cell),
        BagError::BackReference(cell) => numbered(alloc, b"BackReference", cell),
        BagError::BadExotic(cell) => numbered(alloc, b"BadExotic", cell),
        BagError::BadMask(cell) => numbered(alloc, b"BadMask", cell),
        BagError::TooDeep(cell) => numbered(alloc, b"TooDeep", cell),
        BagError::Sprawl => words(alloc, b"Sprawl"),
        BagError::NoMemory => Err(NoMemory),
    }
}

fn token_words(alloc: Global, error: LexError) -> Result<Vec<u8>, NoMemory>
    ensures words { IfOk result (λ text. text.items ≡ token_cause error) }
    ensures memory { IfOk result (λ _. error ≢ tokens.NoMemory) }
{
    match error {
        LexError::BadCharacter(place) => numbered(alloc, b"BadCharacter", place),
        LexError::OpenComment(place) => numbered(alloc, b"OpenComment", place),
        LexError::TooLongName(place) => numbered(alloc, b"TooLongName", place),
        LexError::NoMemory => Err(NoMemory),
    }
}

/// The cause and the place of a schema's refusal.
pub fn grammar_words(alloc: Global, error: GrammarError) -> Result<Vec<u8>, NoMemory>
    ensures words { IfOk result (λ text. text.items ≡ grammar_cause error) }
    ensures memory { IfOk result (λ _. error ≢ grammar.NoMemory) }
{
    match error {
        GrammarError::Lex(error) => token_words(alloc, error),
        GrammarError::Syntax(place) => numbered(alloc, b"Syntax", place),
        GrammarError::DeepType(place) => numbered(alloc, b"DeepType", place),
        GrammarError::TooManyConstructors(place) => numbered(alloc, b"TooManyConstructors", place),
        GrammarError::TooManyFields(place) => numbered(alloc, b"TooManyFields", place),
        GrammarError::TooManyParams(place) => numbered(alloc, b"TooManyParams", place),
        GrammarError::NoMemory => Err(NoMemory),
    }
}
