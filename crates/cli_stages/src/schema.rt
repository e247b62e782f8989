//! The stage of a schema.
ghost use Rattle.std.specs.Prelude.{◌≤◌, length};
ghost use Rattle.tlb_syntax.specs.View.{schema as schema_view};
ghost use Rattle.cli_stages.specs.Schema.{Schema};
ghost use Rattle.cli_stages.specs.Stage.{Answers};

use crate::Stop;
use crate::kinds::kinds;
use crate::schema_text::schema_text;
use crate::tags::tags;
use field_plan::{Plan, compile};
use std::alloc::Global;
use tag_ambiguity::Accepted;

/// The schema that the text writes, where it is accepted.
pub fn accepted(alloc: Global, text: &[u8]) -> Result<Accepted, Stop>
    requires { length text.now ≤ 1048576 }
    ensures { Answers (Schema text.now) schema_view result }
{
    let tree = schema_text(alloc, text)?;
    let kinded = kinds(alloc, tree)?;
    tags(alloc, kinded)
}

/// The plan of the schema that the text writes, where it is accepted.
pub fn plan(alloc: Global, text: &[u8]) -> Result<Plan, Stop>
    requires { length text.now ≤ 1048576 }
    ensures { Answers (Schema text.now) (λ plan. schema_view plan.0) result }
{
    let accepted = accepted(alloc, text)?;
    let plan = compile(alloc, accepted)?;
    Ok(plan)
}
