//! What a path names.
ghost use Rattle.std.specs.Prelude.{◌≡◌, ◌↔◌, IsTrue, map};
ghost use Rattle.pruning.specs.Knowing.{lacks, lacks_key, names_absence, NamesSomething};
ghost use Rattle.typed_value.specs.View.{pair_of, pairs_of, stride, value as value_view};

use crate::step::{entry, step_of};
use bit_slice::BitString;
use typed_value::{Path, Step, Value};

/// Whether the path leads to a value, or names an absence: all its steps but the last lead to a map, behind references
/// too, that does not hold the last one, a key.
pub fn names(value: &Value, path: &Path) -> bool
    ensures { IsTrue result ↔ NamesSomething (value_view value.now) (map stride path.now.steps) }
{
    value.at(path).is_some() || names_absence(value, path.steps.as_slice())
}

// Whether all steps but the last lead to a map that does not hold the last.
fn names_absence(value: &Value, steps: &[Step]) -> bool
    ensures { result ≡ names_absence (value_view value.now) (map stride steps.now) }
{
    let Some((step, rest)) = steps.split_first() else {
        return false;
    };
    if rest.is_empty() {
        return lacks(value, step);
    }
    match step_of(value, step) {
        None => false,
        Some(next) => names_absence(next, rest),
    }
}

// Whether the value is a map, behind references too, that does not hold the key.
fn lacks(value: &Value, step: &Step) -> bool
    ensures { result ≡ lacks (value_view value.now) (stride step.now) }
{
    match value {
        Value::Ref(inner) => lacks(inner.get(), step),
        Value::Map(dict) => lacks_key(dict.pairs.as_slice(), step),
        _ => false,
    }
}

fn lacks_key(pairs: &[(BitString, Value)], step: &Step) -> bool
    ensures { result ≡ lacks_key (pairs_of (map pair_of pairs.now)) (stride step.now) }
{
    match step {
        Step::Field(_) => false,
        Step::Item(_) => false,
        Step::Key(key) => entry(pairs, key).is_none(),
    }
}
