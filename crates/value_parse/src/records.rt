//! Records, lists and maps that are written in a text.
ghost use Rattle.std.specs.Prelude.{◌≡◌, ◌++◌, ◌∷◌, [], map, IfOk, Ok};
ghost use Rattle.typed_value.specs.View.{dict_parts, record_parts, value};
ghost use Rattle.value_grammar.specs.Open as opened;
ghost use Rattle.value_grammar.specs.Steps as steps;
ghost use Rattle.value_parse.specs.Answer.{Moves};
ghost use Rattle.value_parse.specs.View as view;

use crate::error::{TextError, no_go};
use crate::give::{copied, entered, give};
use crate::state::{Frame, Open, Spot};
use bit_slice::{BitString, Name};
use cell_nodes::Hidden;
use sqlite_items::Items;
use std::alloc::Global;
use tlb_memory::NoMemory;
use typed_value::{Dict, Record, Value};
use value_text::{Lexeme, Sign};

/// A value that begins next, inside one more frame.
pub(crate) fn enter(below: Vec<Frame>, frame: Frame) -> Result<Open, TextError>
    ensures { Moves result (Ok (opened.at opened.due (view.frame frame ∷ view.frames below.items))) }
{
    let below = entered(below, frame)?;
    Ok(Open {
        spot: Spot::Due,
        below,
    })
}

fn without_fields(alloc: Global, name: Option<Name>) -> Record
    ensures { record_parts result ≡ (name, []) }
{
    Record {
        name,
        fields: Items::new(alloc),
    }
}

fn without_entries(alloc: Global) -> Dict
    ensures { dict_parts result ≡ ([], []) }
{
    Dict {
        pairs: Items::new(alloc),
        unknown: Items::new(alloc),
    }
}

/// After an item of a list.
pub(crate) fn in_list(
    alloc: Global,
    items: Items<Value>,
    lexeme: Lexeme,
    place: u64,
    below: Vec<Frame>,
) -> Result<Open, TextError>
    ensures { Moves result (steps.in_list (map value items) lexeme place (view.frames below.items)) }
{
    match lexeme {
        Lexeme::Sign(Sign::Comma) => enter(below, Frame::Item(items)),
        Lexeme::Sign(Sign::CloseBracket) => give(alloc, Value::List(items), below),
        _ => no_go(place),
    }
}

/// After a record's name.
pub(crate) fn open_record(
    name: Name,
    lexeme: Lexeme,
    place: u64,
    below: Vec<Frame>,
) -> Result<Open, TextError>
    ensures { Moves result (steps.open_record name lexeme place (view.frames below.items)) }
{
    match lexeme {
        Lexeme::Sign(Sign::OpenBrace) => {
            let spot = Spot::FieldOrEnd(Some(name));
            Ok(Open { spot, below })
        }
        _ => no_go(place),
    }
}

/// Where a field's name is due.
pub(crate) fn label(
    of: Record,
    lexeme: Lexeme,
    place: u64,
    below: Vec<Frame>,
) -> Result<Open, TextError>
    ensures { Moves result
        (steps.label (record_parts of).0 (record_parts of).1 lexeme place (view.frames below.items)) }
{
    match lexeme {
        Lexeme::Name(label) => {
            let spot = Spot::Labelled(of, label);
            Ok(Open { spot, below })
        }
        _ => no_go(place),
    }
}

/// After a record's `{`.
pub(crate) fn label_or_end(
    alloc: Global,
    name: Option<Name>,
    lexeme: Lexeme,
    place: u64,
    below: Vec<Frame>,
) -> Result<Open, TextError>
    ensures { Moves result (steps.label_or_end name lexeme place (view.frames below.items)) }
{
    let record = without_fields(alloc, name);
    match lexeme {
        Lexeme::Sign(Sign::CloseBrace) => give(alloc, Value::Record(record), below),
        lexeme => label(record, lexeme, place, below),
    }
}

/// After a field's name.
pub(crate) fn colon(
    of: Record,
    label: Name,
    lexeme: Lexeme,
    place: u64,
    below: Vec<Frame>,
) -> Result<Open, TextError>
    ensures { Moves result
        (steps.colon (record_parts of).0 (record_parts of).1 label lexeme place (view.frames below.items)) }
{
    match lexeme {
        Lexeme::Sign(Sign::Colon) => enter(below, Frame::Field(of, label)),
        _ => no_go(place),
    }
}

/// After a field.
pub(crate) fn in_record(
    alloc: Global,
    of: Record,
    lexeme: Lexeme,
    place: u64,
    below: Vec<Frame>,
) -> Result<Open, TextError>
    ensures { Moves result
        (steps.in_record (record_parts of).0 (record_parts of).1 lexeme place (view.frames below.items)) }
{
    match lexeme {
        Lexeme::Sign(Sign::Comma) => Ok(Open {
            spot: Spot::FieldDue(of),
            below,
        }),
        Lexeme::Sign(Sign::CloseBrace) => give(alloc, Value::Record(of), below),
        _ => no_go(place),
    }
}

/// Where a key is due.
pub(crate) fn key(
    of: Dict,
    lexeme: Lexeme,
    place: u64,
    below: Vec<Frame>,
) -> Result<Open, TextError>
    ensures { Moves result (steps.key (dict_parts of).0 (dict_parts of).1 lexeme place (view.frames below.items)) }
{
    match lexeme {
        Lexeme::Bits(key) => {
            let spot = Spot::Keyed(of, key);
            Ok(Open { spot, below })
        }
        _ => no_go(place),
    }
}

/// After a `<`.
pub(crate) fn key_or_end(
    alloc: Global,
    lexeme: Lexeme,
    place: u64,
    below: Vec<Frame>,
) -> Result<Open, TextError>
    ensures { Moves result (steps.key_or_end lexeme place (view.frames below.items)) }
{
    let map = without_entries(alloc);
    match lexeme {
        Lexeme::Sign(Sign::Greater) => give(alloc, Value::Map(map), below),
        lexeme => key(map, lexeme, place, below),
    }
}

fn with_hidden(mut of: Dict, prefix: BitString, hidden: Hidden) -> Result<Dict, NoMemory>
    ensures { IfOk result (λ d. dict_parts d
        ≡ ((dict_parts of).0, (dict_parts of).1 ++ (prefix, hidden) ∷ [])) }
{
    of.unknown.push((prefix, hidden))?;
    Ok(of)
}

/// After a key.
pub(crate) fn entry(
    alloc: Global,
    of: Dict,
    key: BitString,
    lexeme: Lexeme,
    place: u64,
    below: Vec<Frame>,
) -> Result<Open, TextError>
    ensures { Moves result
        (steps.entry (dict_parts of).0 (dict_parts of).1 key lexeme place (view.frames below.items)) }
{
    match lexeme {
        Lexeme::Sign(Sign::Colon) => enter(below, Frame::Pair(of, key)),
        Lexeme::Hidden(hidden) => {
            let last = copied(alloc, &key)?;
            let spot = Spot::AfterEntry(with_hidden(of, key, hidden)?, last);
            Ok(Open { spot, below })
        }
        _ => no_go(place),
    }
}

/// After an entry of a map.
pub(crate) fn in_map(
    alloc: Global,
    of: Dict,
    last: BitString,
    lexeme: Lexeme,
    place: u64,
    below: Vec<Frame>,
) -> Result<Open, TextError>
    ensures { Moves result
        (steps.in_map (dict_parts of).0 (dict_parts of).1 last lexeme place (view.frames below.items)) }
{
    match lexeme {
        Lexeme::Sign(Sign::Comma) => {
            let spot = Spot::EntryDue(of, last);
            Ok(Open { spot, below })
        }
        Lexeme::Sign(Sign::Greater) => give(alloc, Value::Map(of), below),
        _ => no_go(place),
    }
}
