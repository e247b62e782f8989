//! `build SCHEMA TYPE TEXT`
ghost use Rattle.std.specs.Prelude.{◌≡◌, ◌≤◌, length, IfOk};
ghost use Rattle.hex.specs.Hex.{encode_lower};
ghost use Rattle.bag_cells.specs.Written.{bag_of};
ghost use Rattle.cell_nodes.specs.Tree.{unfolded};
ghost use Rattle.tlb_syntax.specs.View.{schema as schema_view};
ghost use Rattle.typed_value.specs.View.{value as value_view};
ghost use Rattle.cli_refusals.specs.Lines.{line_of};
ghost use Rattle.cli_stages.specs.Stage.{Answers};
ghost use Rattle.cli_stages.specs.View.{type_by};
ghost use Rattle.cli_commands.specs.Build.{Builds, BuildsText, BuildsType, BuildsValue, bag_line as line_of_bag};
ghost use Rattle.cli_commands.specs.View.{text_by};

use bag_cells::write_bag;
use cell_nodes::Cell;
use cell_pool::Pool;
use cli_stages::Stop;
use cli_stages::built::built;
use cli_stages::named_type::{ShownType, named_type};
use cli_stages::schema::plan;
use cli_stages::text::value_text;
use field_plan::Plan;
use std::alloc::Global;
use tlb_memory::NoMemory;
use typed_value::Value;

// The written bag of the tree.
fn written(alloc: Global, cell: &Cell) -> Result<Vec<u8>, NoMemory>
    requires { unfolded cell.now ≤ 262144 }
    ensures { IfOk result (λ bag. bag.items ≡ bag_of cell.now) }
{
    let mut pool = Pool::new(alloc)?;
    let root = pool.intern(cell)?;
    write_bag(alloc, &pool, root)
}

// Its digits, on a line.
pub(crate) fn bag_line(alloc: Global, cell: &Cell) -> Result<Vec<u8>, NoMemory>
    requires { unfolded cell.now ≤ 262144 }
    ensures { IfOk result (λ text. text.items ≡ line_of_bag cell.now) }
{
    let bag = written(alloc, cell)?;
    let digits = hex::encode(alloc, bag)?;
    let mut line = digits.into_bytes();
    line.extend_from_slice(b"\n")?;
    Ok(line)
}

// The bag of the tree that the value is built to.
fn build_value(alloc: Global, plan: &Plan, ty: &ShownType, value: &Value) -> Result<Vec<u8>, Stop>
    ensures { Answers (BuildsValue (schema_view plan.now.0) (type_by ty.now) (value_view value.now)) text_by result }
{
    let cell = built(alloc, plan, ty, value)?;
    let text = bag_line(alloc, &cell)?;
    Ok(text)
}

// Of the value that the text writes.
fn build_text(alloc: Global, plan: &Plan, ty: &ShownType, file: &[u8]) -> Result<Vec<u8>, Stop>
    ensures { Answers (BuildsText (schema_view plan.now.0) (type_by ty.now) file.now) text_by result }
{
    let value = value_text(alloc, file)?;
    build_value(alloc, plan, ty, &value)
}

// At the type that the word names.
fn build_type(alloc: Global, plan: &Plan, word: &str, file: &[u8]) -> Result<Vec<u8>, Stop>
    requires { length word.now ≤ 1048576 }
    ensures { Answers (BuildsType word.now (schema_view plan.now.0) file.now) text_by result }
{
    let ty = named_type(alloc, plan, word)?;
    build_text(alloc, plan, &ty, file)
}

/// The bag of the tree that the text's value is built to at the type, in hexadecimal digits on a line.
pub fn build(alloc: Global, schema: &[u8], word: &str, file: &[u8]) -> Result<Vec<u8>, Stop>
    requires schema { length schema.now ≤ 1048576 }
    requires word { length word.now ≤ 1048576 }
    ensures { Answers (Builds word.now schema.now file.now) text_by result }
{
    let plan = plan(alloc, schema)?;
    build_type(alloc, &plan, word, file)
}
