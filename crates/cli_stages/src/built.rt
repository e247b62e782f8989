//! The stage of a value at a closed type: the cell that it is built to.
ghost use Rattle.std.specs.Prelude.{◌≡◌, ◌≤◌, IfOk};
ghost use Rattle.cell_nodes.specs.Tree.{unfolded};
ghost use Rattle.field_plan.specs.Placed.{place_view};
ghost use Rattle.schema_leads.specs.Tags.{cores};
ghost use Rattle.tlb_syntax.specs.View.{schema as schema_view};
ghost use Rattle.typed_value.specs.View.{value as value_view};
ghost use Rattle.cli_refusals.specs.Lines.{spot_text};
ghost use Rattle.cli_refusals.specs.Refusal.{unfit as refused_value};
ghost use Rattle.cli_stages.specs.Built.{Built};
ghost use Rattle.cli_stages.specs.Stage.{Answers, IfRefused};
ghost use Rattle.cli_stages.specs.View.{type_by};

use crate::Stop;
use crate::named_type::ShownType;
use cell_nodes::{Cell, Mode};
use cli_refusals::{Refusal, place_words};
use field_plan::{Place, Plan};
use std::alloc::Global;
use typed_builder::{BuildError, build};
use typed_value::Value;

// The refusal at a place.
fn unfit(alloc: Global, plan: &Plan, ty: &ShownType, place: &Place) -> Stop
    ensures { IfRefused (λ r. r ≡ refused_value (spot_text (cores (schema_view plan.now.0)) (type_by ty.now).text
        (place_view place.now).spot) (place_view place.now).cause) result }
{
    match place_words(alloc, plan, &ty.text, place) {
        Ok(words) => Stop::Refused(Refusal::Value(words, place.cause)),
        Err(_) => Stop::NoMemory,
    }
}

/// The cell that the value is built to.
pub fn built(alloc: Global, plan: &Plan, ty: &ShownType, value: &Value) -> Result<Cell, Stop>
    ensures answer { Answers (Built (schema_view plan.now.0) (type_by ty.now) (value_view value.now)) (λ tree. tree) result }
    ensures small { IfOk result (λ cell. unfolded cell ≤ 262144) }
{
    // Nothing in it is passed over.
    let _schema = plan.schema();
    match build(alloc, plan, &ty.closed, value, Mode::Whole) {
        Ok(cell) => Ok(cell),
        Err(BuildError::Unfit(place)) => Err(unfit(alloc, plan, ty, &place)),
        Err(BuildError::NoMemory) => Err(Stop::NoMemory),
    }
}
