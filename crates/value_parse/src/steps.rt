//! Steps from lexeme to lexeme.
ghost use Rattle.std.specs.Prelude.{◌≡◌, ◌≤◌, ◌∷◌, [], IfOk};
ghost use Rattle.value_grammar.specs.Steps as steps;
ghost use Rattle.value_grammar.specs.Open as opened;
ghost use Rattle.value_parse.specs.Answer.{IsAllowed, IsCounted, Moves, Steps};
ghost use Rattle.value_parse.specs.View as view;

use crate::cells::{begin_cell, begin_rest, in_rest, move_cell, open_rest};
use crate::error::{TextError, no_go, refusal};
use crate::give::{entered, give};
use crate::limit::{is_one_cell, is_one_value, is_x, limit};
use crate::records::{
    colon, enter, entry, in_list, in_map, in_record, key, key_or_end, label, label_or_end,
    open_record,
};
use crate::state::{CellSpot, Frame, Open, Spot, State};
use sqlite_items::Items;
use std::alloc::Global;
use typed_value::Value;
use value_text::{Lexeme, Sign};

fn begin_sign(alloc: Global, sign: Sign, place: u64, below: Vec<Frame>) -> Result<Open, TextError>
    ensures { Moves result (steps.begin_sign sign place (view.frames below.items)) }
{
    let spot = match sign {
        Sign::OpenBrace => Spot::FieldOrEnd(None),
        Sign::Tilde => return give(alloc, Value::Absent, below),
        Sign::OpenBracket => Spot::ItemOrEnd,
        Sign::Caret => return enter(below, Frame::Reference),
        Sign::Less => Spot::EntryOrEnd,
        Sign::OpenParen => Spot::InCell(None, Vec::new(alloc), CellSpot::BitsDue(false, place)),
        Sign::Bang => Spot::InCell(None, Vec::new(alloc), CellSpot::ParenDue),
        Sign::Percent => Spot::RestParen,
        _ => return no_go(place),
    };
    Ok(Open { spot, below })
}

// A value begins.
fn begin(alloc: Global, lexeme: Lexeme, place: u64, below: Vec<Frame>) -> Result<Open, TextError>
    ensures { Moves result (steps.begin lexeme place (view.frames below.items)) }
{
    match lexeme {
        Lexeme::Sign(sign) => begin_sign(alloc, sign, place, below),
        Lexeme::Number(number) => give(alloc, Value::Number(number), below),
        Lexeme::Bits(bits) => give(alloc, Value::Bits(bits), below),
        Lexeme::Name(name) => {
            if is_x(&name) {
                no_go(place)
            } else {
                let spot = Spot::Named(name);
                Ok(Open { spot, below })
            }
        }
        Lexeme::Hidden(hidden) => give(alloc, Value::Unknown(hidden), below),
        Lexeme::Beyond(_) => no_go(place),
    }
}

// The first item of a list.
fn begin_item(
    alloc: Global,
    lexeme: Lexeme,
    place: u64,
    below: Vec<Frame>,
) -> Result<Open, TextError>
    ensures { Moves result (steps.begin lexeme place (opened.item [] ∷ view.frames below.items)) }
{
    let below = entered(below, Frame::Item(Items::new(alloc)))?;
    begin(alloc, lexeme, place, below)
}

// After a `[`.
fn list_or_end(
    alloc: Global,
    lexeme: Lexeme,
    place: u64,
    below: Vec<Frame>,
) -> Result<Open, TextError>
    ensures { Moves result (steps.list_or_end lexeme place (view.frames below.items)) }
{
    match lexeme {
        Lexeme::Sign(Sign::CloseBracket) => give(alloc, Value::List(Items::new(alloc)), below),
        lexeme => begin_item(alloc, lexeme, place, below),
    }
}

// Where the lexeme leads to.
fn move_on(alloc: Global, begun: Open, lexeme: Lexeme, place: u64) -> Result<Open, TextError>
    ensures { Moves result
        (steps.move (view.spot begun.spot) lexeme place (view.frames begun.below.items)) }
{
    let Open { spot, below } = begun;
    match spot {
        Spot::Due => begin(alloc, lexeme, place, below),
        Spot::ItemOrEnd => list_or_end(alloc, lexeme, place, below),
        Spot::AfterItem(items) => in_list(alloc, items, lexeme, place, below),
        Spot::Named(name) => open_record(name, lexeme, place, below),
        Spot::FieldOrEnd(name) => label_or_end(alloc, name, lexeme, place, below),
        Spot::FieldDue(record) => label(record, lexeme, place, below),
        Spot::Labelled(record, label) => colon(record, label, lexeme, place, below),
        Spot::AfterField(record) => in_record(alloc, record, lexeme, place, below),
        Spot::EntryOrEnd => key_or_end(alloc, lexeme, place, below),
        Spot::EntryDue(map, _) => key(map, lexeme, place, below),
        Spot::Keyed(map, key) => entry(alloc, map, key, lexeme, place, below),
        Spot::AfterEntry(map, last) => in_map(alloc, map, last, lexeme, place, below),
        Spot::RestParen => open_rest(lexeme, place, below),
        Spot::RestBits => begin_rest(alloc, lexeme, place, below),
        Spot::AfterRest(rest) => in_rest(alloc, rest, lexeme, place, below),
        Spot::RestChild(rest) => begin_cell(Some(rest), Vec::new(alloc), lexeme, place, below),
        Spot::InCell(base, around, cell) => {
            move_cell(alloc, base, around, cell, lexeme, place, below)
        }
        Spot::Done(_) => no_go(place),
    }
}

fn one_more(more: bool, count: u32) -> u32
    requires { count ≤ 1048576 }
    ensures { result ≡ steps.one_more more count }
{
    if more { count + 1 } else { count }
}

// The state after a lexeme that passes no limit.
fn go_on(alloc: Global, state: State, lexeme: Lexeme, place: u64) -> Result<State, TextError>
    requires counted { IsCounted state }
    requires allowed { IsAllowed state lexeme }
    ensures steps { Steps result (steps.step (view.held state) (place, lexeme)) }
    ensures counted { IfOk result IsCounted }
{
    let State {
        begun,
        values,
        cells,
    } = state;
    let values = one_more(is_one_value(&begun.spot, &lexeme), values);
    let cells = one_more(is_one_cell(&begun.spot, &lexeme), cells);
    let begun = move_on(alloc, begun, lexeme, place)?;
    Ok(State {
        begun,
        values,
        cells,
    })
}

/// The state after one more lexeme, which stands at that place.
pub(crate) fn step(
    alloc: Global,
    state: State,
    lexeme: Lexeme,
    place: u64,
) -> Result<State, TextError>
    requires { IsCounted state }
    ensures steps { Steps result (steps.step (view.held state) (place, lexeme)) }
    ensures counted { IfOk result IsCounted }
{
    match limit(state.values, state.cells, &state.begun, &lexeme) {
        Some(cause) => Err(refusal(cause, place)),
        None => go_on(alloc, state, lexeme, place),
    }
}
