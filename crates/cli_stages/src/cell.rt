//! The stage of a cell at a closed type.
ghost use Rattle.std.specs.Prelude.{◌≡◌};
ghost use Rattle.field_plan.specs.Placed.{place_view};
ghost use Rattle.schema_leads.specs.Tags.{cores};
ghost use Rattle.tlb_syntax.specs.View.{schema as schema_view};
ghost use Rattle.typed_value.specs.View.{value};
ghost use Rattle.cli_refusals.specs.Lines.{spot_text};
ghost use Rattle.cli_refusals.specs.Refusal.{cell};
ghost use Rattle.cli_stages.specs.Cell.{Cell as CellStage};
ghost use Rattle.cli_stages.specs.Stage.{Answers, IfRefused};
ghost use Rattle.cli_stages.specs.View.{type_by};

use crate::Stop;
use crate::named_type::ShownType;
use cell_nodes::{Cell, Mode};
use cli_refusals::{Refusal, place_words};
use field_plan::{Place, Plan};
use std::alloc::Global;
use typed_reader::{ReadError, read};
use typed_value::Value;

// The refusal at a place.
pub(crate) fn refused(alloc: Global, plan: &Plan, ty: &ShownType, place: &Place) -> Stop
    ensures { IfRefused (λ r. r ≡ cell (spot_text (cores (schema_view plan.now.0)) (type_by ty.now).text
        (place_view place.now).spot) (place_view place.now).cause) result }
{
    match place_words(alloc, plan, &ty.text, place) {
        Ok(words) => Stop::Refused(Refusal::Cell(words, place.cause)),
        Err(_) => Stop::NoMemory,
    }
}

/// The value that the cell spells.
pub fn cell_value(
    alloc: Global,
    plan: &Plan,
    ty: &ShownType,
    cell: &Cell,
    mode: Mode,
) -> Result<Value, Stop>
    ensures { Answers (CellStage mode (schema_view plan.now.0) (type_by ty.now) cell.now) value result }
{
    // Nothing in it is passed over.
    let _schema = plan.schema();
    match read(alloc, plan, &ty.closed, cell, mode) {
        Ok(value) => Ok(value),
        Err(ReadError::Stuck(place)) => Err(refused(alloc, plan, ty, &place)),
        Err(ReadError::NoMemory) => Err(Stop::NoMemory),
    }
}
