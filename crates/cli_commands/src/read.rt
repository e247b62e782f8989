//! `read SCHEMA TYPE BAG` and `lax SCHEMA TYPE BAG`
ghost use Rattle.std.specs.Prelude.{◌≡◌, ◌≤◌, length, IfOk};
ghost use Rattle.tlb_syntax.specs.View.{schema as schema_view};
ghost use Rattle.typed_value.specs.View.{value};
ghost use Rattle.value_text.specs.Text.{text_of};
ghost use Rattle.cli_refusals.specs.Lines.{line_of};
ghost use Rattle.cli_stages.specs.Stage.{Answers};
ghost use Rattle.cli_stages.specs.View.{type_by};
ghost use Rattle.cli_commands.specs.Read.{Reads, ReadsBag, ReadsType, ShowsCell};
ghost use Rattle.cli_commands.specs.View.{text_by};

use cell_nodes::{Cell, Mode};
use cli_stages::Stop;
use cli_stages::bag::bag;
use cli_stages::cell::cell_value;
use cli_stages::named_type::{ShownType, named_type};
use cli_stages::schema::plan;
use field_plan::Plan;
use std::alloc::Global;
use tlb_memory::NoMemory;
use typed_value::Value;
use value_text::print;

// The value's text and a line feed.
pub(crate) fn value_line(alloc: Global, shown: &Value) -> Result<Vec<u8>, NoMemory>
    ensures { IfOk result (λ text. text.items ≡ line_of (text_of (value shown.now))) }
{
    let mut text = print(alloc, shown)?;
    text.extend_from_slice(b"\n")?;
    Ok(text)
}

// The line of the value that the cell spells.
fn shown(
    alloc: Global,
    mode: Mode,
    plan: &Plan,
    ty: &ShownType,
    root: &Cell,
) -> Result<Vec<u8>, Stop>
    ensures { Answers (ShowsCell mode (schema_view plan.now.0) (type_by ty.now) root.now) text_by result }
{
    let value = cell_value(alloc, plan, ty, root, mode)?;
    let text = value_line(alloc, &value)?;
    Ok(text)
}

// That of the bag's cell.
fn read_bag(
    alloc: Global,
    mode: Mode,
    plan: &Plan,
    ty: &ShownType,
    file: &[u8],
) -> Result<Vec<u8>, Stop>
    ensures { Answers (ReadsBag mode (schema_view plan.now.0) (type_by ty.now) file.now) text_by result }
{
    let root = bag(alloc, file)?;
    shown(alloc, mode, plan, ty, &root)
}

// At the type that the word names.
fn read_type(
    alloc: Global,
    mode: Mode,
    plan: &Plan,
    word: &str,
    file: &[u8],
) -> Result<Vec<u8>, Stop>
    requires { length word.now ≤ 1048576 }
    ensures { Answers (ReadsType mode word.now (schema_view plan.now.0) file.now) text_by result }
{
    let ty = named_type(alloc, plan, word)?;
    read_bag(alloc, mode, plan, &ty, file)
}

/// The value that the bag's cell spells at the type in this mode, on a line.
pub fn read(
    alloc: Global,
    mode: Mode,
    schema: &[u8],
    word: &str,
    file: &[u8],
) -> Result<Vec<u8>, Stop>
    requires schema { length schema.now ≤ 1048576 }
    requires word { length word.now ≤ 1048576 }
    ensures { Answers (Reads mode word.now schema.now file.now) text_by result }
{
    let plan = plan(alloc, schema)?;
    read_type(alloc, mode, &plan, word, file)
}
