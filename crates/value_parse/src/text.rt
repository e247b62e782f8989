//! The value that a text writes.
ghost use Rattle.std.specs.Prelude.{◌≡◌, ◌<◌, ◌≤◌, ℕ, drop, length, MatchOption};
ghost use Rattle.typed_value.specs.Values.{Plain};
ghost use Rattle.typed_value.specs.View.{value};
ghost use Rattle.value_text.specs.Division.{space_before};
ghost use Rattle.value_grammar.specs.Reading.{Finishes, IsUnfinished, Reaches, Stops};
ghost use Rattle.value_text.specs.Writes.{TextWrites, is_space};
ghost use Rattle.value_grammar.specs.Open as opened;
ghost use Rattle.value_grammar.specs.declared.cause.Cause.{Cause};
ghost use Rattle.value_grammar.specs.Refused.{TextRefused};
ghost use Rattle.value_grammar.specs.Steps as steps;
ghost use Rattle.value_parse.specs.Answer.{IfParsed, IsCounted, IsFurther};
ghost use Rattle.value_parse.specs.View as view;

use crate::error::TextError;
use crate::state::{Open, Spot, State};
use crate::steps::step;
use std::alloc::Global;
use typed_value::Value;
use value_grammar::laws::{
    at_most_one_refusal, at_most_one_value, finish_or_stop, finished_is_written,
    refused_writes_none, stop_is_refusal, written_is_finished,
};
use value_text::lexeme_at;

fn is_space(byte: u8) -> bool
    ensures { result ≡ is_space byte }
{
    byte == b' ' || byte == b'\t' || byte == b'\r' || byte == b'\n'
}

// With how much white space a text begins.
fn spaces_before(text: &[u8]) -> usize
    ensures value { result ≡ space_before text.now }
    ensures bound { result ≤ length text.now }
{
    'bytes: for (i, byte) in text.iter().enumerate() {
        if !is_space(*byte) {
            return i;
        }
    }
    text.len()
}

fn start(alloc: Global) -> State
    ensures start { view.held result ≡ steps.start }
    ensures counted { IsCounted result }
{
    State {
        begun: Open {
            spot: Spot::Due,
            below: Vec::new(alloc),
        },
        values: 0,
        cells: 0,
    }
}

// The whole value, where there is one.
fn whole_value(spot: Spot) -> Option<Value>
    ensures { MatchOption result (IsUnfinished (view.spot spot)) (λ v. view.spot spot ≡ opened.done (value v)) }
{
    match spot {
        Spot::Done(value) => Some(value),
        _ => None,
    }
}

// The whole value, where the text ends at that place.
fn finished(text: &[u8], state: State, place: usize) -> Result<Value, TextError>
    requires reaches { Reaches text.now place (view.held state) }
    requires ends { length text.now ≤ place }
    ensures { IfParsed result (λ v. Finishes text.now (value v)) (λ cause byte. Stops text.now cause byte) }
{
    let State {
        begun,
        values: _,
        cells: _,
    } = state;
    let Open { spot, below: _ } = begun;
    match whole_value(spot) {
        Some(whole) => Ok(whole),
        None => Err(TextError::Syntax(place as u64)),
    }
}

// What stands in a text after so many bytes.
fn after(text: &[u8], count: usize) -> &[u8]
    requires { count ≤ length text.now }
    ensures { result.now ≡ drop count text.now }
{
    &text[count..]
}

// The state after the lexeme at that place, and the place of the next.
fn advance(
    alloc: Global,
    text: &[u8],
    state: State,
    place: usize,
) -> Result<(State, usize), TextError>
    requires reaches { Reaches text.now place (view.held state) }
    requires counted { IsCounted state }
    requires within { place < length text.now }
    ensures { IfParsed result (λ r. IsFurther text.now place r.0 r.1) (λ cause byte. Stops text.now cause byte) }
{
    let rest = after(text, place);
    match lexeme_at(alloc, rest)? {
        None => Err(TextError::Syntax(place as u64)),
        Some((lexeme, len)) => match step(alloc, state, lexeme, place as u64) {
            Err(error) => Err(error),
            Ok(next) => {
                let further = after(rest, len);
                let spaces = spaces_before(further);
                Ok((next, place + (len + spaces)))
            }
        },
    }
}

// Where the steps lead in a text.
fn read(alloc: Global, text: &[u8]) -> Result<Value, TextError>
    ensures { IfParsed result (λ v. Finishes text.now (value v)) (λ cause byte. Stops text.now cause byte) }
{
    let mut state = start(alloc);
    let mut place = spaces_before(text);
    'lexemes: while place < text.len() {
        let (next, to) = advance(alloc, text, state, place)?;
        state = next;
        place = to;
    }
    finished(text, state, place)
}

/// The value that a text writes, or the text's first refusal from the left.
pub fn parse(alloc: Global, text: &[u8]) -> Result<Value, TextError>
    // What is answered holds of the text.
    ensures holds { IfParsed result (λ v. TextWrites text.now (value v))
        (λ cause byte. TextRefused text.now cause byte) }
    // The value that the text writes is answered, unless out of memory.
    ensures written { (v : Plain) → TextWrites text.now v → IfParsed result (λ found. value found ≡ v) (λ _ _. ⊥) }
    // The refusal of the text is answered, unless out of memory.
    ensures refused { (cause : Cause) (byte : ℕ) → TextRefused text.now cause byte
        → IfParsed result (λ _. ⊥) (λ found place. (found ≡ cause) × (place ≡ byte)) }
{
    finished_is_written();
    stop_is_refusal();
    written_is_finished();
    at_most_one_value();
    finish_or_stop();
    at_most_one_refusal();
    refused_writes_none();
    read(alloc, text)
}
