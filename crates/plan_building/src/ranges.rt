//! The numbers of a value are in range.
ghost use Rattle.std.specs.Prelude.{◌≡◌, length, map};
ghost use Rattle.building.specs.Buildable.{AllInRange, AreHashes, InRange, IsHash, PairsInRange};
ghost use Rattle.cell_nodes.specs.BytesLaws.{AreBytes};
ghost use Rattle.cell_nodes.specs.Good.{AllGood};
ghost use Rattle.typed_value.specs.View.{pair_of, pairs_of, value as value_view, vals_in, vals_of};

use bit_slice::{BitString, Name};
use cell_nodes::{Cell, Hidden};
use typed_value::Value;

/// A law: the bits of a value are bits, its cells are good, and its hashes have 32 bytes. It goes through the value once.
#[cycle(ranges)]
pub fn in_range(value: &Value)
    ensures { InRange (value_view value.now) }
{
    match value {
        Value::Number(_) | Value::Absent => {}
        Value::Bits(bits) => {
            let _length = bits.slice().len();
        }
        Value::Record(record) => fields_in_range(record.fields.as_slice()),
        Value::List(items) => all_in_range(items.as_slice()),
        Value::Ref(held) => in_range(held.get()),
        Value::Unknown(hidden) => is_hash(hidden),
        Value::Map(dict) => {
            pairs_in_range(dict.pairs.as_slice());
            are_hashes(dict.unknown.as_slice());
        }
        Value::Raw(cell) => cell.good(),
        Value::Rest(rest) => {
            let _length = rest.bits.slice().len();
            all_good(rest.refs.as_slice());
        }
    }
}

#[cycle(ranges)]
fn all_in_range(items: &[Value])
    ensures { AllInRange (vals_of (map value_view items.now)) }
{
    for item in items {
        in_range(item);
    }
}

#[cycle(ranges)]
fn fields_in_range(fields: &[(Name, Value)])
    ensures { AllInRange (vals_in (map pair_of fields.now)) }
{
    for (_, value) in fields {
        in_range(value);
    }
}

#[cycle(ranges)]
fn pairs_in_range(pairs: &[(BitString, Value)])
    ensures { PairsInRange (pairs_of (map pair_of pairs.now)) }
{
    for (_, value) in pairs {
        in_range(value);
    }
}

pub(crate) fn is_hash(hidden: &Hidden)
    ensures { IsHash hidden.now }
{
    are_bytes(&hidden.hash);
}

fn are_bytes(hash: &[u8; 32])
    ensures whole { length hash.now ≡ 32 }
    ensures bytes { AreBytes hash.now }
{
    let _first = hash[0];
}

pub(crate) fn are_hashes(unknown: &[(BitString, Hidden)])
    ensures { AreHashes unknown.now }
{
    for (_, hidden) in unknown {
        is_hash(hidden);
    }
}

fn all_good(cells: &[Cell])
    ensures { AllGood cells.now }
{
    for cell in cells {
        cell.good();
    }
}
