//! What a command answers, before it is put.
ghost use Rattle.std.specs.Prelude.{◌≡◌, IfOk, Some, Err};
ghost use Rattle.tlb_files.specs.Counts.{counts};
ghost use Rattle.cli_refusals.specs.Refusal.{verdict_of};
ghost use Rattle.cli_refusals.specs.View.{refusal_by};
ghost use Rattle.cli_commands.specs.Forms.{files_of};
ghost use Rattle.cli_commands.specs.View.{IsTaken, form_by};
ghost use Rattle.cli_run.specs.Ran.{Answered, Concludes, OpensSome, RefusesFile};
ghost use Rattle.cli_run.specs.View.{verdict_by};

use cli_commands::Form;
use cli_refusals::{Refusal, Status};
use cli_stages::Stop;
use std::alloc::Global;
use tlb_files::{LoadError, Shelf, load_all};
use tlb_memory::NoMemory;

/// A status and the text that is put with it.
#[derive(Drop)]
pub struct Answer {
    pub status: Status,
    pub text: Vec<u8>,
}

// The status and the line of a refusal.
fn refuse(alloc: Global, refusal: &Refusal) -> Result<Answer, NoMemory>
    ensures { IfOk result (λ answer. verdict_by answer ≡ verdict_of (Err (refusal_by refusal.now))) }
{
    let text = refusal.line(alloc)?;
    Ok(Answer {
        status: refusal.status(),
        text,
    })
}

// The refusal of a file that was not loaded.
fn refuse_file(alloc: Global, error: LoadError<'_>) -> Result<Answer, NoMemory>
    ensures { IfOk result (λ answer. RefusesFile error.entry (verdict_by answer)) }
{
    match error {
        LoadError::Fault(file) => {
            let name = Vec::from_slice(alloc, file.name.as_bytes())?;
            refuse(alloc, &Refusal::ReadFault(name))
        }
        LoadError::TooLong(file) => {
            let name = Vec::from_slice(alloc, file.name.as_bytes())?;
            refuse(alloc, &Refusal::TooLong(name))
        }
        LoadError::NoMemory => Err(NoMemory),
    }
}

// What is put for what the command came to.
fn conclude(alloc: Global, came: Result<Vec<u8>, Stop>) -> Result<Answer, NoMemory>
    ensures { IfOk result (λ answer. Concludes came (verdict_by answer)) }
{
    match came {
        Ok(text) => Ok(Answer {
            status: Status::Done,
            text,
        }),
        Err(Stop::Refused(refusal)) => refuse(alloc, &refusal),
        Err(Stop::NoMemory) => Err(NoMemory),
    }
}

/// What a command answers over a shelf.
pub fn answer_to<H: Shelf>(alloc: Global, form: Form<'_>, shelf: &mut H) -> Result<Answer, NoMemory>
    requires { IsTaken form }
    ensures held { H.held shelf.new ≡ H.held shelf.old }
    ensures answered { IfOk result (λ answer. Answered (Some (form_by form.entry)) (H.held shelf.old)
        (counts (H.opens shelf.old) (H.given shelf.old) (H.reads shelf.old) (H.faults shelf.old))
        (counts (H.opens shelf.new) (H.given shelf.new) (H.reads shelf.new) (H.faults shelf.new)) (verdict_by answer)) }
    ensures opens { OpensSome (files_of (Some (form_by form.entry)))
        (counts (H.opens shelf.old) (H.given shelf.old) (H.reads shelf.old) (H.faults shelf.old))
        (counts (H.opens shelf.new) (H.given shelf.new) (H.reads shelf.new) (H.faults shelf.new)) }
{
    let files = form.files(alloc)?;
    match load_all(alloc, shelf, files.as_slice()) {
        Ok(contents) => conclude(
            alloc,
            form.verb.answer(alloc, form.words, contents.as_slice()),
        ),
        Err(error) => refuse_file(alloc, error),
    }
}
