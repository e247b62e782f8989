//! `tidy SCHEMA TYPE BAG`
ghost use Rattle.std.specs.Prelude.{◌≡◌, ◌≤◌, length};
ghost use Rattle.cell_nodes.specs.declared.tree.Mode.TheVariants.{Lax};
ghost use Rattle.schema_leads.specs.Tags.{cores};
ghost use Rattle.spelling.specs.Spells.{Reading};
ghost use Rattle.tlb_syntax.specs.View.{schema as schema_view};
ghost use Rattle.typed_value.specs.View.{value as value_view};
ghost use Rattle.cli_stages.specs.Stage.{Answers};
ghost use Rattle.cli_stages.specs.View.{type_by};
ghost use Rattle.cli_commands.specs.Tidy.{Tidies, TidiesBag, TidiesCell, TidiesType, TidiesValue};
ghost use Rattle.cli_commands.specs.View.{text_by};

use crate::build::bag_line;
use cell_nodes::{Cell, Mode};
use cli_stages::Stop;
use cli_stages::bag::bag;
use cli_stages::cell::cell_value;
use cli_stages::named_type::{ShownType, named_type};
use cli_stages::rebuilt::rebuilt;
use cli_stages::schema::plan;
use field_plan::Plan;
use std::alloc::Global;
use typed_value::Value;

// The bag of the tree that the cell's value is built to.
fn tidy_value(
    alloc: Global,
    plan: &Plan,
    ty: &ShownType,
    root: &Cell,
    value: &Value,
) -> Result<Vec<u8>, Stop>
    requires { Reading Lax (cores (schema_view plan.now.0)) (type_by ty.now).closed root.now (value_view value.now) }
    ensures { Answers (TidiesValue (schema_view plan.now.0) (type_by ty.now) (value_view value.now)) text_by result }
{
    let cell = rebuilt(alloc, plan, ty, root, value)?;
    let text = bag_line(alloc, &cell)?;
    Ok(text)
}

// Of the value that the cell spells.
fn tidy_cell(alloc: Global, plan: &Plan, ty: &ShownType, root: &Cell) -> Result<Vec<u8>, Stop>
    ensures { Answers (TidiesCell (schema_view plan.now.0) (type_by ty.now) root.now) text_by result }
{
    let value = cell_value(alloc, plan, ty, root, Mode::Lax)?;
    tidy_value(alloc, plan, ty, root, &value)
}

// The bag's cell.
fn tidy_bag(alloc: Global, plan: &Plan, ty: &ShownType, file: &[u8]) -> Result<Vec<u8>, Stop>
    ensures { Answers (TidiesBag (schema_view plan.now.0) (type_by ty.now) file.now) text_by result }
{
    let root = bag(alloc, file)?;
    tidy_cell(alloc, plan, ty, &root)
}

// At the type that the word names.
fn tidy_type(alloc: Global, plan: &Plan, word: &str, file: &[u8]) -> Result<Vec<u8>, Stop>
    requires { length word.now ≤ 1048576 }
    ensures { Answers (TidiesType word.now (schema_view plan.now.0) file.now) text_by result }
{
    let ty = named_type(alloc, plan, word)?;
    tidy_bag(alloc, plan, &ty, file)
}

/// The bag of the tree that spells the value of the bag's cell with the shortest labels, in hexadecimal digits on a line.
pub fn tidy(alloc: Global, schema: &[u8], word: &str, file: &[u8]) -> Result<Vec<u8>, Stop>
    requires schema { length schema.now ≤ 1048576 }
    requires word { length word.now ≤ 1048576 }
    ensures { Answers (Tidies word.now schema.now file.now) text_by result }
{
    let plan = plan(alloc, schema)?;
    tidy_type(alloc, &plan, word, file)
}
