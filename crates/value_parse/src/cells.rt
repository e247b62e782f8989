//! Cells that are written in a text.
ghost use Rattle.std.specs.Prelude.{◌≡◌, ◌==◌, ◌+◌, ◌++◌, ◌∷◌, [], ◌≤◌, map, if◌then◌else◌, IfOk};
ghost use Rattle.typed_value.specs.View.{slice_of};
ghost use Rattle.cell_nodes.specs.Layout.{exotic_kind};
ghost use Rattle.std.specs.Int.{bit_at};
ghost use Rattle.cell_nodes.specs.Tree.{deepest, depth_over, marks, tree_of};
ghost use Rattle.cell_nodes.specs.declared.tree.Kind.TheVariants.{Ordinary};
ghost use Rattle.std.specs.Prelude.{Ok, length};
ghost use Rattle.value_grammar.specs.Steps as steps;
ghost use Rattle.value_grammar.specs.Within as within;
ghost use Rattle.value_parse.specs.Answer.{Closes, Moves};
ghost use Rattle.value_parse.specs.View as view;

use crate::error::{TextError, no_go};
use crate::give::give;
use crate::state::{CellSpot, Frame, Open, OpenCell, Spot};
use bit_slice::BitSlice;
use cell_nodes::{Cell, CellError, Kind};
use sqlite_items::Items;
use std::alloc::Global;
use tlb_memory::NoMemory;
use typed_value::{RestPart, Value};
use value_grammar::Cause;
use value_text::{Lexeme, Sign};

// One more than the greatest depth of the references at one level, or 0 without any.
fn depth_over(refs: &[Cell], level: u32) -> u16
    requires { level ≤ 3 }
    ensures value { result ≡ depth_over level (map marks refs.now) }
    ensures bound { result ≤ 1025 }
{
    let mut found: u16 = 0;
    'refs: for child in refs {
        found = found.max(child.depth(level) + 1);
    }
    found
}

// The depth at the level after level `i`, which is that of the level before where the mask doesn't have the level.
fn depth_after(refs: &[Cell], mask: u8, i: u32, before: u16) -> u16
    requires { i ≤ 2 }
    ensures { result ≡ (if bit_at mask i == 1 then depth_over (i + 1) (map marks refs.now) else before) }
{
    if (mask >> i) % 2 == 1 {
        depth_over(refs, i + 1)
    } else {
        before
    }
}

// The greatest depth, at any level, of an ordinary cell with so many references.
fn deepest(bits: BitSlice<'_>, refs: &[Cell]) -> u16
    ensures { result ≡ deepest (tree_of Ordinary bits.entry refs.now) }
{
    let mask = Cell::mask_of(Kind::Ordinary, bits, refs);
    let lowest = depth_over(refs, 0);
    let first = depth_after(refs, mask, 0, lowest);
    let second = depth_after(refs, mask, 1, first);
    let third = depth_after(refs, mask, 2, second);
    lowest.max(first).max(second).max(third)
}

fn closed_ordinary(alloc: Global, begun: OpenCell) -> Result<Cell, TextError>
    ensures { Closes result (within.closed_ordinary begun.bits begun.refs) begun.place }
{
    let place = begun.place;
    if begun.refs.len() <= 4 {
        match Cell::ordinary(alloc, begun.bits, begun.refs.as_slice()) {
            Ok(cell) => Ok(cell),
            Err(CellError::TooDeep) => Err(TextError::DeepText(place)),
            Err(CellError::NoMemory) => Err(TextError::NoMemory),
            Err(CellError::BadExotic) => unreachable!(),
        }
    } else if deepest(begun.bits.slice(), begun.refs.as_slice()) > 1024 {
        Err(TextError::DeepText(place))
    } else {
        Err(TextError::Range(place))
    }
}

fn closed_exotic(alloc: Global, begun: OpenCell) -> Result<Cell, TextError>
    ensures { Closes result
        (within.closed_exotic (exotic_kind begun.bits (length begun.refs)) begun.bits begun.refs) begun.place }
{
    let place = begun.place;
    match Cell::exotic(alloc, begun.bits, begun.refs.as_slice()) {
        Ok(cell) => Ok(cell),
        Err(CellError::TooDeep) => Err(TextError::DeepText(place)),
        Err(CellError::BadExotic) => Err(TextError::Range(place)),
        Err(CellError::NoMemory) => Err(TextError::NoMemory),
    }
}

fn closed(alloc: Global, begun: OpenCell) -> Result<Cell, TextError>
    ensures { Closes result (within.closed (view.open_cell begun)) begun.place }
{
    if begun.exotic {
        closed_exotic(alloc, begun)
    } else {
        closed_ordinary(alloc, begun)
    }
}

fn with_child(mut begun: OpenCell, child: Cell) -> Result<OpenCell, NoMemory>
    ensures { IfOk result (λ p. view.open_cell p ≡ steps.with_child (view.open_cell begun) child) }
{
    begun.refs.push(child)?;
    Ok(begun)
}

fn with_ref(mut rest: RestPart, child: Cell) -> Result<RestPart, NoMemory>
    ensures { IfOk result (λ r. slice_of r ≡ steps.rest_of rest.bits (rest.refs ++ child ∷ [])) }
{
    rest.refs.push(child)?;
    Ok(rest)
}

// A whole cell: a reference of the cell around it or of a rest, or a value.
fn give_cell(
    alloc: Global,
    cell: Cell,
    base: Option<RestPart>,
    mut around: Vec<OpenCell>,
    below: Vec<Frame>,
) -> Result<Open, TextError>
    ensures { Moves result
        (Ok (steps.give_cell cell (view.base base) (view.around around.items) (view.frames below.items))) }
{
    match around.pop() {
        Some(begun) => {
            let begun = with_child(begun, cell)?;
            let spot = Spot::InCell(base, around, CellSpot::AfterPart(begun));
            Ok(Open { spot, below })
        }
        None => match base {
            Some(rest) => {
                let spot = Spot::AfterRest(with_ref(rest, cell)?);
                Ok(Open { spot, below })
            }
            None => give(alloc, Value::Raw(cell), below),
        },
    }
}

/// Where a cell may begin.
pub(crate) fn begin_cell(
    base: Option<RestPart>,
    around: Vec<OpenCell>,
    lexeme: Lexeme,
    place: u64,
    below: Vec<Frame>,
) -> Result<Open, TextError>
    ensures { Moves result
        (steps.begin_cell (view.base base) (view.around around.items) lexeme place (view.frames below.items)) }
{
    let cell = match lexeme {
        Lexeme::Sign(Sign::OpenParen) => CellSpot::BitsDue(false, place),
        Lexeme::Sign(Sign::Bang) => CellSpot::ParenDue,
        _ => return no_go(place),
    };
    let spot = Spot::InCell(base, around, cell);
    Ok(Open { spot, below })
}

// After a `!`.
fn open_exotic(
    base: Option<RestPart>,
    around: Vec<OpenCell>,
    lexeme: Lexeme,
    place: u64,
    below: Vec<Frame>,
) -> Result<Open, TextError>
    ensures { Moves result
        (steps.open_exotic (view.base base) (view.around around.items) lexeme place (view.frames below.items)) }
{
    match lexeme {
        Lexeme::Sign(Sign::OpenParen) => {
            let spot = Spot::InCell(base, around, CellSpot::BitsDue(true, place));
            Ok(Open { spot, below })
        }
        _ => no_go(place),
    }
}

// After a cell's `(`.
fn begin_body(
    alloc: Global,
    base: Option<RestPart>,
    around: Vec<OpenCell>,
    head: (bool, u64),
    lexeme: Lexeme,
    place: u64,
    below: Vec<Frame>,
) -> Result<Open, TextError>
    ensures { Moves result
        (steps.begin_body (view.base base) (view.around around.items) head.0 head.1 lexeme place
        (view.frames below.items)) }
{
    match lexeme {
        Lexeme::Bits(bits) => {
            let begun = OpenCell {
                exotic: head.0,
                place: head.1,
                bits,
                refs: Items::new(alloc),
            };
            let spot = Spot::InCell(base, around, CellSpot::AfterPart(begun));
            Ok(Open { spot, below })
        }
        _ => no_go(place),
    }
}

// After a cell's bits or a reference.
fn in_body(
    alloc: Global,
    base: Option<RestPart>,
    around: Vec<OpenCell>,
    begun: OpenCell,
    lexeme: Lexeme,
    place: u64,
    below: Vec<Frame>,
) -> Result<Open, TextError>
    ensures { Moves result
        (steps.in_body (view.base base) (view.around around.items) (view.open_cell begun) lexeme place
        (view.frames below.items)) }
{
    match lexeme {
        Lexeme::Sign(Sign::Comma) => {
            let spot = Spot::InCell(base, around, CellSpot::ChildDue(begun));
            Ok(Open { spot, below })
        }
        Lexeme::Sign(Sign::CloseParen) => {
            let cell = closed(alloc, begun)?;
            give_cell(alloc, cell, base, around, below)
        }
        _ => no_go(place),
    }
}

// One more cell that is begun.
fn inside(mut around: Vec<OpenCell>, begun: OpenCell) -> Result<Vec<OpenCell>, NoMemory>
    ensures { IfOk result (λ now. view.around now.items ≡ view.open_cell begun ∷ view.around around.items) }
{
    match around.push(begun) {
        Ok(()) => Ok(around),
        Err(_) => Err(NoMemory),
    }
}

// A cell that begins inside another.
fn begin_child(
    base: Option<RestPart>,
    around: Vec<OpenCell>,
    begun: OpenCell,
    lexeme: Lexeme,
    place: u64,
    below: Vec<Frame>,
) -> Result<Open, TextError>
    ensures { Moves result
        (steps.begin_cell (view.base base) (view.open_cell begun ∷ view.around around.items)
        lexeme place (view.frames below.items)) }
{
    let around = inside(around, begun)?;
    begin_cell(base, around, lexeme, place, below)
}

/// In a cell.
pub(crate) fn move_cell(
    alloc: Global,
    base: Option<RestPart>,
    around: Vec<OpenCell>,
    cell: CellSpot,
    lexeme: Lexeme,
    place: u64,
    below: Vec<Frame>,
) -> Result<Open, TextError>
    ensures { Moves result
        (steps.move_cell (view.base base) (view.around around.items) (view.cell_spot cell) lexeme place
        (view.frames below.items)) }
{
    match cell {
        CellSpot::ParenDue => open_exotic(base, around, lexeme, place, below),
        CellSpot::BitsDue(exotic, paren) => {
            begin_body(alloc, base, around, (exotic, paren), lexeme, place, below)
        }
        CellSpot::AfterPart(begun) => in_body(alloc, base, around, begun, lexeme, place, below),
        CellSpot::ChildDue(begun) => begin_child(base, around, begun, lexeme, place, below),
    }
}

/// After a `%`.
pub(crate) fn open_rest(lexeme: Lexeme, place: u64, below: Vec<Frame>) -> Result<Open, TextError>
    ensures { Moves result (steps.open_rest lexeme place (view.frames below.items)) }
{
    match lexeme {
        Lexeme::Sign(Sign::OpenParen) => Ok(Open {
            spot: Spot::RestBits,
            below,
        }),
        _ => no_go(place),
    }
}

/// After the `(` of what was left of a cell.
pub(crate) fn begin_rest(
    alloc: Global,
    lexeme: Lexeme,
    place: u64,
    below: Vec<Frame>,
) -> Result<Open, TextError>
    ensures { Moves result (steps.begin_rest lexeme place (view.frames below.items)) }
{
    match lexeme {
        Lexeme::Bits(bits) => {
            let rest = RestPart {
                bits,
                refs: Items::new(alloc),
            };
            let spot = Spot::AfterRest(rest);
            Ok(Open { spot, below })
        }
        _ => no_go(place),
    }
}

/// After the bits or a reference of what was left of a cell.
pub(crate) fn in_rest(
    alloc: Global,
    rest: RestPart,
    lexeme: Lexeme,
    place: u64,
    below: Vec<Frame>,
) -> Result<Open, TextError>
    ensures { Moves result (steps.in_rest (slice_of rest) lexeme place (view.frames below.items)) }
{
    match lexeme {
        Lexeme::Sign(Sign::Comma) => Ok(Open {
            spot: Spot::RestChild(rest),
            below,
        }),
        Lexeme::Sign(Sign::CloseParen) => give(alloc, Value::Rest(rest), below),
        _ => no_go(place),
    }
}
