//! What is known of a path in a value with hidden parts.
ghost use Rattle.std.specs.Prelude.{◌≡◌, map};
ghost use Rattle.pruning.specs.Blanked.{some_begin};
ghost use Rattle.pruning.specs.Knowing.{hides, hides_key, is_hidden, known};
ghost use Rattle.schema_leads.specs.Leads.{begins};
ghost use Rattle.typed_value.specs.View.{stride, value as value_view};

use crate::step::step_of;
use bit_slice::BitString;
use pruning::Knowledge;
use typed_value::{Hidden, Path, Step, Value};

/// What a value with hidden parts lets one know of a path. The way goes through each reference that it meets, at its
/// end too, and `NotKnown` is judged first: the way meets a hidden part, or a key that a hidden prefix begins.
pub fn knows(value: &Value, path: &Path) -> Knowledge
    ensures { result ≡ known (value_view value.now) (map stride path.now.steps) }
{
    let mut here = value;
    'steps: for step in path.steps.as_slice() {
        if hides(here, step) {
            return Knowledge::NotKnown;
        }
        match step_of(here, step) {
            None => return Knowledge::KnownAbsent,
            Some(next) => here = next,
        }
    }
    if is_hidden(here) {
        Knowledge::NotKnown
    } else {
        Knowledge::Known
    }
}

// Whether the value is hidden, behind references too.
fn is_hidden(value: &Value) -> bool
    ensures { result ≡ is_hidden (value_view value.now) }
{
    match value {
        Value::Ref(inner) => is_hidden(inner.get()),
        Value::Unknown(_) => true,
        _ => false,
    }
}

// Whether a step from the value meets a hidden part.
fn hides(value: &Value, step: &Step) -> bool
    ensures { result ≡ hides (value_view value.now) (stride step.now) }
{
    match value {
        Value::Ref(inner) => hides(inner.get(), step),
        Value::Unknown(_) => true,
        Value::Map(dict) => hides_key(dict.unknown.as_slice(), step),
        _ => false,
    }
}

// Whether the step is a key that one of the prefixes begins.
fn hides_key(unknown: &[(BitString, Hidden)], step: &Step) -> bool
    ensures { result ≡ hides_key unknown.now (stride step.now) }
{
    match step {
        Step::Field(_) => false,
        Step::Item(_) => false,
        Step::Key(key) => some_begin(unknown, key),
    }
}

// Whether one of the prefixes begins the key.
fn some_begin(unknown: &[(BitString, Hidden)], key: &BitString) -> bool
    ensures { result ≡ some_begin unknown.now key.now }
{
    'parts: for (prefix, _) in unknown {
        if begins(prefix, key) {
            return true;
        }
    }
    false
}

fn begins(prefix: &BitString, key: &BitString) -> bool
    ensures { result ≡ begins prefix.now key.now }
{
    key.slice().begins_with(prefix.slice())
}
