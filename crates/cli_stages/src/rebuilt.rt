//! The stage of a value that a cell spelled: the cell that it is built to.
ghost use Rattle.std.specs.Prelude.{◌≡◌, ◌≤◌, IfOk};
ghost use Rattle.cell_nodes.specs.Tree.{unfolded};
ghost use Rattle.cell_nodes.specs.declared.tree.Mode.TheVariants.{Lax};
ghost use Rattle.schema_leads.specs.Tags.{cores};
ghost use Rattle.spelling.specs.Spells.{Reading};
ghost use Rattle.tlb_syntax.specs.View.{schema as schema_view};
ghost use Rattle.typed_value.specs.View.{value as value_view};
ghost use Rattle.cli_stages.specs.Rebuilt.{Rebuilt};
ghost use Rattle.cli_stages.specs.Stage.{Answers};
ghost use Rattle.cli_stages.specs.View.{type_by};

use crate::Stop;
use crate::built::built;
use crate::named_type::ShownType;
use accepted_building::laws::accepted_is_buildable;
use building_laws::laws::{tree_is_built, unfit_stops};
use cell_nodes::Cell;
use field_plan::Plan;
use std::alloc::Global;
use strict_laws::laws::lax_in_range;
use typed_value::Value;

/// The cell that the value of a cell is built to, with the shortest labels.
pub fn rebuilt(
    alloc: Global,
    plan: &Plan,
    ty: &ShownType,
    cell: &Cell,
    value: &Value,
) -> Result<Cell, Stop>
    requires { Reading Lax (cores (schema_view plan.now.0)) (type_by ty.now).closed cell.now (value_view value.now) }
    ensures answer { Answers (Rebuilt (schema_view plan.now.0) (type_by ty.now) (value_view value.now)) (λ tree. tree) result }
    ensures small { IfOk result (λ tree. unfolded tree ≤ 262144) }
{
    // What was read of a good cell is in range, so the plain builder comes to what it is built to.
    lax_in_range();
    cell.good();
    accepted_is_buildable();
    plan.schema();
    tree_is_built();
    unfit_stops();
    built(alloc, plan, ty, value)
}
