//! The command forms.
ghost use Rattle.std.specs.Prelude.{◌≡◌, ◌++◌, [], IfOk, IfSome, Some, map, string_bytes};
ghost use Rattle.std.specs.Option.{option_map};
ghost use Rattle.tlb_files.specs.View.{files_by};
ghost use Rattle.cli_commands.specs.Forms.{are_taken as taken, files_of, form_of, named};
ghost use Rattle.cli_commands.specs.Slots.{limit_of};
ghost use Rattle.cli_commands.specs.View.{IsTaken, form_by};

use crate::commands::Verb;
use crate::slot::Slot;
use std::alloc::{AllocError, Global};
use tlb_files::File;
use tlb_memory::NoMemory;

// Whether there are as many words as slots, and each slot takes its own.
fn are_taken(slots: &[Slot], words: &[String]) -> bool
    ensures { result ≡ taken slots.now (map string_bytes words.now) }
{
    if slots.len() != words.len() {
        return false;
    }
    'slots: for (place, slot) in slots.iter().enumerate() {
        if !slot.takes(words[place].as_str()) {
            return false;
        }
    }
    true
}

// Puts the file that the slot's word names, where it names one.
fn push_named<'a>(files: &mut Vec<File<'a>>, slot: Slot, word: &'a str) -> Result<(), NoMemory>
    ensures { IfOk result (λ u. files_by files.new.items ≡ files_by files.old.items ++ named (limit_of slot) word.now []) }
{
    if let Some(limit) = slot.limit() {
        files
            .push(File { name: word, limit })
            .map_err(AllocError::from)?;
    }
    Ok(())
}

/// A command, and the words in its slots.
#[derive(Clone, Copy)]
pub struct Form<'a> {
    pub verb: Verb,
    pub words: &'a [String],
}

impl<'a> Form<'a> {
    /// The command form that the words are, without the program's name.
    pub fn of(words: &'a [String]) -> Option<Form<'a>>
        ensures form { option_map form_by result ≡ form_of (map string_bytes words.now) }
        // Its words are those that its slots take.
        ensures taken { IfSome result IsTaken }
    {
        let [first, words @ ..] = words else {
            return None;
        };
        let verb = Verb::of(first.as_str())?;
        if are_taken(verb.slots(words), words) {
            Some(Form { verb, words })
        } else {
            None
        }
    }

    /// The files that its words name, in their order.
    pub fn files(&self, alloc: Global) -> Result<Vec<File<'a>>, NoMemory>
        ensures { IfOk result (λ files. files_by files.items ≡ files_of (Some (form_by self.now))) }
    {
        let mut files = Vec::new(alloc);
        'slots: for (place, slot) in self.verb.slots(self.words).iter().enumerate() {
            if let Some(word) = self.words.get(place) {
                push_named(&mut files, *slot, word.as_str())?;
            }
        }
        Ok(files)
    }
}
