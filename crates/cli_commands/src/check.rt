//! `check SCHEMA`
ghost use Rattle.std.specs.Prelude.{◌≡◌, ◌≤◌, length, IfOk};
ghost use Rattle.tlb_syntax.specs.View.{schema as schema_view};
ghost use Rattle.cli_stages.specs.Stage.{Answers};
ghost use Rattle.cli_commands.specs.Check.{Checks, count_line as line_of_counts};
ghost use Rattle.cli_commands.specs.View.{text_by};

use cli_stages::Stop;
use cli_stages::schema::accepted;
use std::alloc::Global;
use tag_ambiguity::Accepted;
use tlb_memory::NoMemory;

fn count_line(alloc: Global, accepted: &Accepted) -> Result<Vec<u8>, NoMemory>
    ensures { IfOk result (λ text. text.items ≡ line_of_counts (schema_view accepted.now)) }
{
    let (types, constructors) = accepted.counts();
    let line = format!(in alloc; "ok types={types} constructors={constructors}\n")?;
    Ok(line.into_bytes())
}

/// How many types and constructors the schema declares, where it is accepted.
pub fn check(alloc: Global, schema: &[u8]) -> Result<Vec<u8>, Stop>
    requires { length schema.now ≤ 1048576 }
    ensures { Answers (Checks schema.now) text_by result }
{
    let accepted = accepted(alloc, schema)?;
    let text = count_line(alloc, &accepted)?;
    Ok(text)
}
