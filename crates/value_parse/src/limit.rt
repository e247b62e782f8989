//! Limits that a lexeme may pass.
ghost use Rattle.std.specs.Prelude.{◌≡◌, ◌&&◌, bytes_eq, codes};
ghost use Rattle.value_text.specs.Writes.{comes_after};
ghost use Rattle.value_grammar.specs.Within as within;
ghost use Rattle.value_parse.specs.View as view;

use crate::state::{CellSpot, Frame, Open, OpenCell, Spot};
use bit_slice::{BitSlice, Name};
use value_grammar::Cause;
use value_text::{Lexeme, Sign};

/// The most levels of values in one another.
const MOST_LEVELS: usize = 2304;

/// The most levels of cells in one another.
const MOST_CELL_LEVELS: usize = 1025;

/// The most values of a text.
const MOST_VALUES: u32 = 1048576;

/// The most cells of a text.
const MOST_CELLS: u32 = 262144;

fn begins_by_sign(sign: Sign) -> bool
    ensures { result ≡ within.begins_by_sign sign }
{
    match sign {
        Sign::OpenBrace
        | Sign::Tilde
        | Sign::OpenBracket
        | Sign::Caret
        | Sign::Less
        | Sign::OpenParen
        | Sign::Bang
        | Sign::Percent => true,
        Sign::CloseBrace
        | Sign::CloseBracket
        | Sign::CloseParen
        | Sign::Greater
        | Sign::Comma
        | Sign::Colon => false,
    }
}

/// Whether a name is `x`, which no record has.
pub(crate) fn is_x(name: &Name) -> bool
    ensures { result ≡ bytes_eq name.now (codes "x") }
{
    name.text() == b"x".as_slice()
}

// Whether a value begins with the lexeme.
fn begins_value(lexeme: &Lexeme) -> bool
    ensures { result ≡ within.begins_value lexeme.now }
{
    match lexeme {
        Lexeme::Sign(sign) => begins_by_sign(*sign),
        Lexeme::Name(name) => !is_x(name),
        Lexeme::Number(_) | Lexeme::Bits(_) | Lexeme::Hidden(_) | Lexeme::Beyond(_) => true,
    }
}

fn begins_cell(lexeme: &Lexeme) -> bool
    ensures { result ≡ within.begins_cell lexeme.now }
{
    match lexeme {
        Lexeme::Sign(Sign::OpenParen | Sign::Bang) => true,
        _ => false,
    }
}

fn is_paren(lexeme: &Lexeme) -> bool
    ensures { result ≡ within.is_paren lexeme.now }
{
    match lexeme {
        Lexeme::Sign(Sign::OpenParen) => true,
        _ => false,
    }
}

fn is_beyond(lexeme: &Lexeme) -> bool
    ensures { result ≡ within.is_beyond lexeme.now }
{
    match lexeme {
        Lexeme::Beyond(_) => true,
        _ => false,
    }
}

// Whether a value may begin there.
fn is_value_due(spot: &Spot) -> bool
    ensures { result ≡ within.is_value_due (view.spot spot.now) }
{
    match spot {
        Spot::Due | Spot::ItemOrEnd => true,
        _ => false,
    }
}

fn is_paren_due(spot: &CellSpot) -> bool
    ensures { result ≡ within.is_paren_due (view.cell_spot spot.now) }
{
    match spot {
        CellSpot::ParenDue | CellSpot::ChildDue(_) => true,
        CellSpot::BitsDue(_, _) | CellSpot::AfterPart(_) => false,
    }
}

// Whether a cell's `(` may come there.
fn is_cell_due(spot: &Spot) -> bool
    ensures { result ≡ within.is_cell_due (view.spot spot.now) }
{
    match spot {
        Spot::Due | Spot::ItemOrEnd | Spot::RestChild(_) => true,
        Spot::InCell(_, _, cell) => is_paren_due(cell),
        _ => false,
    }
}

// Whether a cell would begin inside too many.
fn is_deep_child(around: &[OpenCell], spot: &CellSpot, lexeme: &Lexeme) -> bool
    ensures { result ≡ within.is_deep_child (view.around around.now) (view.cell_spot spot.now) lexeme.now }
{
    match spot {
        CellSpot::ChildDue(_) => around.len() >= MOST_CELL_LEVELS - 1 && begins_cell(lexeme),
        _ => false,
    }
}

// Whether the lexeme would open one level too many.
fn is_deep(spot: &Spot, below: &[Frame], lexeme: &Lexeme) -> bool
    ensures { result ≡ within.is_deep (view.spot spot.now) (view.frames below.now) lexeme.now }
{
    match spot {
        Spot::Due => below.len() >= MOST_LEVELS && begins_value(lexeme),
        Spot::ItemOrEnd => below.len() >= MOST_LEVELS - 1 && begins_value(lexeme),
        Spot::InCell(_, around, cell) => is_deep_child(around, cell, lexeme),
        _ => false,
    }
}

/// Whether one more value begins there.
pub(crate) fn is_one_value(spot: &Spot, lexeme: &Lexeme) -> bool
    ensures { result ≡ (within.is_value_due (view.spot spot.now) && within.begins_value lexeme.now) }
{
    is_value_due(spot) && begins_value(lexeme)
}

/// Whether one more cell begins there.
pub(crate) fn is_one_cell(spot: &Spot, lexeme: &Lexeme) -> bool
    ensures { result ≡ (within.is_cell_due (view.spot spot.now) && within.is_paren lexeme.now) }
{
    is_cell_due(spot) && is_paren(lexeme)
}

// Whether one value or cell too many would begin.
fn is_bulk(values: u32, cells: u32, spot: &Spot, lexeme: &Lexeme) -> bool
    ensures { result ≡ within.is_bulk values cells (view.spot spot.now) lexeme.now }
{
    (is_one_value(spot, lexeme) && values >= MOST_VALUES)
        || (is_one_cell(spot, lexeme) && cells >= MOST_CELLS)
}

// Whether a key comes after the one before it, which does not begin it.
fn comes_after(before: BitSlice<'_>, key: BitSlice<'_>) -> bool
    ensures { result ≡ comes_after before.entry key.entry }
{
    let most = before.len().min(key.len());
    'bits: for i in 0..most {
        let mine = before.known_bit(i);
        if mine != key.known_bit(i) {
            return !mine;
        }
    }
    false
}

fn is_out_of_order(spot: &Spot, lexeme: &Lexeme) -> bool
    ensures { result ≡ within.is_out_of_order (view.spot spot.now) lexeme.now }
{
    match (spot, lexeme) {
        (Spot::EntryDue(_, last), Lexeme::Bits(key)) => !comes_after(last.slice(), key.slice()),
        _ => false,
    }
}

/// The first limit that the lexeme passes, where so many values and cells have begun.
pub(crate) fn limit(values: u32, cells: u32, begun: &Open, lexeme: &Lexeme) -> Option<Cause>
    ensures { result ≡
        within.limit_of values cells (view.spot begun.now.spot) (view.frames begun.now.below.items) lexeme.now }
{
    if is_deep(&begun.spot, &begun.below, lexeme) {
        Some(Cause::DeepText)
    } else if is_bulk(values, cells, &begun.spot, lexeme) {
        Some(Cause::BulkText)
    } else if is_beyond(lexeme) {
        Some(Cause::Range)
    } else if is_out_of_order(&begun.spot, lexeme) {
        Some(Cause::KeyOrder)
    } else {
        None
    }
}
