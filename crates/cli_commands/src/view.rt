//! `view SCHEMA TYPE BAG` and `view SCHEMA TYPE BAG ROOTHASH`
ghost use Rattle.std.specs.Prelude.{◌≡◌, ◌≤◌, length, IfOk};
ghost use Rattle.tlb_syntax.specs.View.{schema as schema_view};
ghost use Rattle.cli_stages.specs.Stage.{Answers};
ghost use Rattle.cli_stages.specs.View.{shown_by, type_by};
ghost use Rattle.cli_commands.specs.View.{text_by};
ghost use Rattle.cli_commands.specs.Views.{Views, ViewsBag, ViewsCell, ViewsType, view_lines as lines_of};

use crate::read::value_line;
use cell_nodes::Cell;
use cli_stages::Stop;
use cli_stages::bag::bag;
use cli_stages::named_type::{ShownType, named_type};
use cli_stages::proof::shown;
use cli_stages::schema::plan;
use field_plan::Plan;
use proof_view::Viewed;
use std::alloc::Global;
use tlb_memory::NoMemory;

// The root hash and the value's text, a line each.
fn view_lines(alloc: Global, viewed: &Viewed) -> Result<Vec<u8>, NoMemory>
    ensures { IfOk result (λ text. text.items ≡ lines_of (shown_by viewed.now)) }
{
    let hash = hex::encode(alloc, viewed.hash)?;
    let line = format!(in alloc; "root {hash}\n")?;
    let mut lines = line.into_bytes();
    lines.extend_from_slice(&value_line(alloc, &viewed.value)?)?;
    Ok(lines)
}

// The lines of what the cell shows.
fn view_cell(
    alloc: Global,
    plan: &Plan,
    ty: &ShownType,
    cell: &Cell,
    root: Option<[u8; 32]>,
) -> Result<Vec<u8>, Stop>
    ensures { Answers (ViewsCell root (schema_view plan.now.0) (type_by ty.now) cell.now) text_by result }
{
    let viewed = shown(alloc, plan, ty, cell, root)?;
    let text = view_lines(alloc, &viewed)?;
    Ok(text)
}

// Those of the bag's cell.
fn view_bag(
    alloc: Global,
    plan: &Plan,
    ty: &ShownType,
    file: &[u8],
    root: Option<[u8; 32]>,
) -> Result<Vec<u8>, Stop>
    ensures { Answers (ViewsBag root (schema_view plan.now.0) (type_by ty.now) file.now) text_by result }
{
    let cell = bag(alloc, file)?;
    view_cell(alloc, plan, ty, &cell, root)
}

// At the type that the word names.
fn view_type(
    alloc: Global,
    plan: &Plan,
    word: &str,
    file: &[u8],
    root: Option<[u8; 32]>,
) -> Result<Vec<u8>, Stop>
    requires { length word.now ≤ 1048576 }
    ensures { Answers (ViewsType word.now root (schema_view plan.now.0) file.now) text_by result }
{
    let ty = named_type(alloc, plan, word)?;
    view_bag(alloc, plan, &ty, file, root)
}

/// What the bag's proof shows at the type, with the hash of the tree that it is of. Where a root hash is given, it has to
/// be that hash.
pub fn view(
    alloc: Global,
    schema: &[u8],
    word: &str,
    file: &[u8],
    root: Option<[u8; 32]>,
) -> Result<Vec<u8>, Stop>
    requires schema { length schema.now ≤ 1048576 }
    requires word { length word.now ≤ 1048576 }
    ensures { Answers (Views word.now root schema.now file.now) text_by result }
{
    let plan = plan(alloc, schema)?;
    view_type(alloc, &plan, word, file, root)
}
