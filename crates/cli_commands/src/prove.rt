//! `prove SCHEMA TYPE BAG PATH..`
ghost use Rattle.std.specs.Prelude.{◌≡◌, ◌≤◌, length, map, string_bytes};
ghost use Rattle.tlb_syntax.specs.View.{schema as schema_view};
ghost use Rattle.cli_stages.specs.Stage.{Answers};
ghost use Rattle.cli_stages.specs.View.{type_by};
ghost use Rattle.cli_commands.specs.Prove.{Proves, ProvesBag, ProvesCell, ProvesType};
ghost use Rattle.cli_commands.specs.View.{text_by};

use crate::build::bag_line;
use cell_nodes::Cell;
use cli_stages::Stop;
use cli_stages::bag::bag;
use cli_stages::named_type::{ShownType, named_type};
use cli_stages::proving::proved;
use cli_stages::schema::plan;
use field_plan::Plan;
use std::alloc::Global;

// The bag of the proof of what the paths name in the cell.
fn prove_cell(
    alloc: Global,
    plan: &Plan,
    ty: &ShownType,
    root: &Cell,
    paths: &[String],
) -> Result<Vec<u8>, Stop>
    requires { length paths.now ≤ 64 }
    ensures { Answers (ProvesCell (map string_bytes paths.now) (schema_view plan.now.0) (type_by ty.now) root.now) text_by
        result }
{
    let proof = proved(alloc, plan, ty, root, paths)?;
    let text = bag_line(alloc, &proof)?;
    Ok(text)
}

// In the bag's cell.
fn prove_bag(
    alloc: Global,
    plan: &Plan,
    ty: &ShownType,
    file: &[u8],
    paths: &[String],
) -> Result<Vec<u8>, Stop>
    requires { length paths.now ≤ 64 }
    ensures { Answers (ProvesBag (map string_bytes paths.now) (schema_view plan.now.0) (type_by ty.now) file.now) text_by
        result }
{
    let root = bag(alloc, file)?;
    prove_cell(alloc, plan, ty, &root, paths)
}

// At the type that the word names.
fn prove_type(
    alloc: Global,
    plan: &Plan,
    word: &str,
    file: &[u8],
    paths: &[String],
) -> Result<Vec<u8>, Stop>
    requires word { length word.now ≤ 1048576 }
    requires paths { length paths.now ≤ 64 }
    ensures { Answers (ProvesType (map string_bytes paths.now) word.now (schema_view plan.now.0) file.now) text_by result }
{
    let ty = named_type(alloc, plan, word)?;
    prove_bag(alloc, plan, &ty, file, paths)
}

/// The bag of the Merkle proof of what the paths name in the bag's cell, in hexadecimal digits on a line. There are at
/// most 64 paths.
pub fn prove(
    alloc: Global,
    schema: &[u8],
    word: &str,
    file: &[u8],
    paths: &[String],
) -> Result<Vec<u8>, Stop>
    requires schema { length schema.now ≤ 1048576 }
    requires word { length word.now ≤ 1048576 }
    requires paths { length paths.now ≤ 64 }
    ensures { Answers (Proves (map string_bytes paths.now) word.now schema.now file.now) text_by result }
{
    let plan = plan(alloc, schema)?;
    prove_type(alloc, &plan, word, file, paths)
}
