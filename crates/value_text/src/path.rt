//! Paths that are read from words.
ghost use Rattle.std.specs.Prelude.{◌≡◌, IfOk, List, map, ℕ, true};
ghost use Rattle.typed_value.specs.Paths.{Stride};
ghost use Rattle.typed_value.specs.View.{stride};
ghost use Rattle.value_text.specs.PathAnswer.{IfPathAnswered};
ghost use Rattle.value_text.specs.PathPoints.{Holds, IsClosed, is_step};
ghost use Rattle.value_text.specs.PathText.{IsBadPath, IsStep, PathWrites, step_text};

use crate::point::Point;
use bit_slice::{BitString, Name};
use sqlite_items::Items;
use std::alloc::{AllocError, Global};
use tlb_memory::NoMemory;
use typed_value::{Path, Step};

/// Why a word is no path.
#[derive(Clone, Copy, Debug, PartialEq, Eq)]
pub enum PathError {
    /// The byte at this place is the first with which no path can go on. It is the word's length where the word ends
    /// too early.
    BadPath(u64),
    NoMemory,
}

impl From<NoMemory> for PathError {
    ghost use Rattle.std.specs.Prelude.{◌≡◌};
    ghost use Rattle.value_text.specs.declared.path.PathError.TheVariants.{NoMemory};

    ghost from_gives = { λ _ e. e ≡ NoMemory };

    fn from(_: NoMemory) -> PathError {
        PathError::NoMemory
    }
}

impl From<AllocError> for PathError {
    ghost use Rattle.std.specs.Prelude.{◌≡◌};
    ghost use Rattle.value_text.specs.declared.path.PathError.TheVariants.{NoMemory};

    ghost from_gives = { λ _ e. e ≡ NoMemory };

    fn from(_: AllocError) -> PathError {
        PathError::NoMemory
    }
}

// A key, whose bits stand between `x{` and `}`.
fn key_of(alloc: Global, text: &[u8]) -> Result<Step, NoMemory>
    requires { IsClosed text.now }
    ensures { IfOk result (λ s. IsStep (stride s) × (text.now ≡ step_text (stride s))) }
{
    match BitString::from_hex_text(alloc, &text[2..text.len() - 1]) {
        Ok(bits) => Ok(Step::Key(bits)),
        Err(_) => Err(NoMemory),
    }
}

// The step that stands at the point.
fn step_of(alloc: Global, point: Point, text: &[u8]) -> Result<Step, NoMemory>
    requires holds { Holds point text.now }
    requires whole { is_step point ≡ true }
    ensures { IfOk result (λ s. IsStep (stride s) × (text.now ≡ step_text (stride s))) }
{
    match point {
        Point::Zero => Ok(Step::Item(0)),
        Point::Number(number) => Ok(Step::Item(number)),
        Point::Closed => key_of(alloc, text),
        _ => Ok(Step::Field(Name::new(alloc, text)?)),
    }
}

// The steps of the path that the text writes, or its bad place, by one pass over the text.
fn read_steps(alloc: Global, text: &[u8]) -> Result<Items<Step>, PathError>
    ensures { IfPathAnswered result (λ steps. PathWrites text.now (map stride steps))
        (λ place. IsBadPath text.now place) }
{
    let mut steps = Items::new(alloc);
    let mut point = Point::Root;
    let mut start = 0;
    'bytes: for (i, byte) in text.iter().enumerate() {
        let Some(next) = point.next(*byte) else {
            return Err(PathError::BadPath(i as u64));
        };
        if *byte == b'/' {
            if point.is_step() {
                steps.push(step_of(alloc, point, &text[start..i])?)?;
            }
            start = i + 1;
        }
        point = next;
    }
    if !point.may_end() {
        return Err(PathError::BadPath(text.len() as u64));
    }
    if point.is_step() {
        steps.push(step_of(alloc, point, &text[start..])?)?;
    }
    Ok(steps)
}

/// The path that a word writes.
pub fn parse_path(alloc: Global, word: &str) -> Result<Path, PathError>
    // What is answered holds of the word.
    ensures holds { IfPathAnswered result (λ path. PathWrites word.now (map stride path.steps))
        (λ place. IsBadPath word.now place) }
    // The path that the word writes is answered, or out of memory.
    ensures path { (steps : List Stride) → PathWrites word.now steps
        → IfPathAnswered result (λ path. map stride path.steps ≡ steps) (λ _. ⊥) }
    // The place that the word has is answered, or out of memory.
    ensures bad { (place : ℕ) → IsBadPath word.now place → IfPathAnswered result (λ _. ⊥) (λ found. found ≡ place) }
{
    match read_steps(alloc, word.as_bytes()) {
        Ok(steps) => Ok(Path { steps }),
        Err(error) => Err(error),
    }
}
