//! The steps of `make` from the built cell on.
ghost use Rattle.std.specs.Prelude.{◌≡◌, ◌≤◌, string_bytes};
ghost use Rattle.cell_nodes.specs.Tree.{unfolded};
ghost use Rattle.tlb_syntax.specs.View.{schema as schema_view};
ghost use Rattle.cli_stages.specs.Stage.{Answers};
ghost use Rattle.cli_stages.specs.View.{type_by};
ghost use Rattle.cli_make.specs.Make.{MakesProof, MakesRoot, MakesShown, MakesTree};
ghost use Rattle.cli_make.specs.View.{IsWritten, text_by};

use crate::lines::lines;
use crate::written::{Written, write};
use cell_nodes::Cell;
use cli_stages::Stop;
use cli_stages::bag::bag;
use cli_stages::named_type::ShownType;
use cli_stages::proof::shown;
use cli_stages::proving::proved;
use field_plan::Plan;
use std::alloc::Global;

// What the proof shows, read again, with the hash of the message.
fn make_shown(
    alloc: Global,
    plan: &Plan,
    ty: &ShownType,
    word: &str,
    message: &Written,
    proof: &Written,
    again: &Cell,
) -> Result<Vec<u8>, Stop>
    requires message { IsWritten message.now }
    requires proof { IsWritten proof.now }
    ensures { Answers (MakesShown word.now (schema_view plan.now.0) (type_by ty.now) message.now.cell proof.now.cell again.now)
        text_by result }
{
    let viewed = shown(alloc, plan, ty, again, Some(message.cell.hash(0)))?;
    let text = lines(alloc, word, message, proof, &viewed)?;
    Ok(text)
}

// The proof's bag is read again.
fn make_again(
    alloc: Global,
    plan: &Plan,
    ty: &ShownType,
    word: &str,
    message: &Written,
    proof: &Written,
) -> Result<Vec<u8>, Stop>
    requires message { IsWritten message.now }
    requires proof { IsWritten proof.now }
    ensures { Answers (MakesProof word.now (schema_view plan.now.0) (type_by ty.now) message.now.cell proof.now.cell) text_by
        result }
{
    let again = bag(alloc, &proof.bag)?;
    make_shown(alloc, plan, ty, word, message, proof, &again)
}

// Its bag is written.
fn make_proof(
    alloc: Global,
    plan: &Plan,
    ty: &ShownType,
    word: &str,
    message: &Written,
    cell: Cell,
) -> Result<Vec<u8>, Stop>
    requires message { IsWritten message.now }
    requires small { unfolded cell ≤ 262144 }
    ensures { Answers (MakesProof word.now (schema_view plan.now.0) (type_by ty.now) message.now.cell cell) text_by result }
{
    let proof = write(alloc, cell)?;
    make_again(alloc, plan, ty, word, message, &proof)
}

// What the word's path names in the message is proved.
fn make_root(
    alloc: Global,
    plan: &Plan,
    ty: &ShownType,
    word: String,
    message: &Written,
    root: &Cell,
) -> Result<Vec<u8>, Stop>
    requires { IsWritten message.now }
    ensures { Answers (MakesRoot (string_bytes word) (schema_view plan.now.0) (type_by ty.now) message.now.cell root.now) text_by
        result }
{
    let words = [word];
    let proof = proved(alloc, plan, ty, root, &words)?;
    make_proof(alloc, plan, ty, words[0].as_str(), message, proof)
}

// The message's bag is read again.
fn make_bag(
    alloc: Global,
    plan: &Plan,
    ty: &ShownType,
    word: String,
    message: &Written,
) -> Result<Vec<u8>, Stop>
    requires { IsWritten message.now }
    ensures { Answers (MakesTree (string_bytes word) (schema_view plan.now.0) (type_by ty.now) message.now.cell) text_by result }
{
    let root = bag(alloc, &message.bag)?;
    make_root(alloc, plan, ty, word, message, &root)
}

/// Of the cell that the message was built to: its bag is written.
pub(crate) fn make_tree(
    alloc: Global,
    plan: &Plan,
    ty: &ShownType,
    word: String,
    cell: Cell,
) -> Result<Vec<u8>, Stop>
    requires { unfolded cell ≤ 262144 }
    ensures { Answers (MakesTree (string_bytes word) (schema_view plan.now.0) (type_by ty.now) cell) text_by result }
{
    let message = write(alloc, cell)?;
    make_bag(alloc, plan, ty, word, &message)
}
