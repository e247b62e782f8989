//! The steps of `make` up to the built cell.
ghost use Rattle.std.specs.Prelude.{◌≡◌, string_bytes};
ghost use Rattle.tlb_syntax.specs.View.{schema as schema_view};
ghost use Rattle.typed_value.specs.View.{value as value_view};
ghost use Rattle.cli_stages.specs.Stage.{Answers};
ghost use Rattle.cli_stages.specs.View.{type_by};
ghost use Rattle.cli_make.specs.Make.{Makes, MakesText, MakesType, MakesValue};
ghost use Rattle.cli_make.specs.View.{text_by};
ghost use Rattle.sample_message.specs.Message.{message_text as text_of_message, path_word as word_of_path};

use crate::proving::make_tree;
use cli_stages::Stop;
use cli_stages::built::built;
use cli_stages::named_type::{ShownType, named_type};
use cli_stages::schema::plan;
use cli_stages::text::value_text;
use field_plan::Plan;
use sample_message::{message_schema, message_text, path_word};
use std::alloc::Global;
use typed_value::Value;

// The value is built.
fn make_value(
    alloc: Global,
    plan: &Plan,
    ty: &ShownType,
    word: String,
    value: &Value,
) -> Result<Vec<u8>, Stop>
    ensures { Answers (MakesValue (string_bytes word) (schema_view plan.now.0) (type_by ty.now) (value_view value.now)) text_by
        result }
{
    let cell = built(alloc, plan, ty, value)?;
    make_tree(alloc, plan, ty, word, cell)
}

// The word of the path is made.
fn make_word(
    alloc: Global,
    plan: &Plan,
    ty: &ShownType,
    count: u32,
    value: &Value,
) -> Result<Vec<u8>, Stop>
    ensures { Answers (MakesValue (word_of_path count) (schema_view plan.now.0) (type_by ty.now) (value_view value.now)) text_by
        result }
{
    let word = path_word(alloc, count)?;
    make_value(alloc, plan, ty, word, value)
}

// The message's text is read.
fn make_read(
    alloc: Global,
    plan: &Plan,
    ty: &ShownType,
    count: u32,
    text: &[u8],
) -> Result<Vec<u8>, Stop>
    requires { text.now ≡ text_of_message count }
    ensures { Answers (MakesText count (schema_view plan.now.0) (type_by ty.now)) text_by result }
{
    let value = value_text(alloc, text)?;
    make_word(alloc, plan, ty, count, &value)
}

// It is made.
fn make_text(alloc: Global, plan: &Plan, ty: &ShownType, count: u32) -> Result<Vec<u8>, Stop>
    ensures { Answers (MakesText count (schema_view plan.now.0) (type_by ty.now)) text_by result }
{
    let text = message_text(alloc, count)?;
    make_read(alloc, plan, ty, count, &text)
}

// Its type is named.
fn make_type(alloc: Global, plan: &Plan, count: u32) -> Result<Vec<u8>, Stop>
    ensures { Answers (MakesType count (schema_view plan.now.0)) text_by result }
{
    let ty = named_type(alloc, plan, "Message Any")?;
    make_text(alloc, plan, &ty, count)
}

/// The lines of the message with so many entries: its hash, how large its bag and that of a proof of one entry are, and
/// what the proof shows there.
pub fn make(alloc: Global, count: u32) -> Result<Vec<u8>, Stop>
    ensures { Answers (Makes count) text_by result }
{
    let plan = plan(alloc, message_schema())?;
    make_type(alloc, &plan, count)
}
