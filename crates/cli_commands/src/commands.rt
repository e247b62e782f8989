//! The table of commands.
ghost use Rattle.std.specs.Prelude.{◌≡◌, ◌≤◌, drop, length, map, string_bytes, true, unwrap_or};
ghost use Rattle.tlb_files.specs.Contents.{AreShort};
ghost use Rattle.tlb_files.specs.View.{contents_of};
ghost use Rattle.cli_stages.specs.Stage.{Answers};
ghost use Rattle.cli_commands.specs.Build.{Builds};
ghost use Rattle.cli_commands.specs.Command.{at};
ghost use Rattle.cli_commands.specs.Commands.{CommandAnswers, slots_of, verb_of};
ghost use Rattle.cli_commands.specs.Forms.{are_taken, files_in};
ghost use Rattle.cli_commands.specs.Prove.{Proves, prove_slots as slots_with_paths};
ghost use Rattle.cli_commands.specs.Read.{Reads};
ghost use Rattle.cli_make.specs.Make.{Makes};
ghost use Rattle.cli_commands.specs.Slots.{count_of, root_hash as hash_of_word};
ghost use Rattle.cli_commands.specs.Tidy.{Tidies};
ghost use Rattle.cli_commands.specs.View.{text_by};
ghost use Rattle.cli_commands.specs.Views.{Views, view_slots as slots_by_count};

use crate::build::build;
use crate::check::check;
use crate::hash::hash;
use crate::prove::prove;
use crate::read::read;
use crate::slot::{Slot, count, root_hash};
use crate::tidy::tidy;
use crate::view::view;
use cell_nodes::Mode;
use cli_make::make;
use cli_stages::Stop;
use std::alloc::Global;

/// What stands first in the words of a command.
#[derive(Clone, Copy, Debug, PartialEq, Eq)]
pub enum Verb {
    Read,
    Lax,
    Build,
    Tidy,
    Prove,
    View,
    Make,
    Hash,
    Check,
}

impl Verb {
    /// The command of a first word.
    pub fn of(word: &str) -> Option<Verb>
        ensures { result ≡ verb_of word.now }
    {
        match word {
            "read" => Some(Verb::Read),
            "lax" => Some(Verb::Lax),
            "build" => Some(Verb::Build),
            "tidy" => Some(Verb::Tidy),
            "prove" => Some(Verb::Prove),
            "view" => Some(Verb::View),
            "make" => Some(Verb::Make),
            "hash" => Some(Verb::Hash),
            "check" => Some(Verb::Check),
            _ => None,
        }
    }

    /// What the words after its own are.
    pub fn slots(self, words: &[String]) -> &'static [Slot]
        ensures { result.now ≡ slots_of self (map string_bytes words.now) }
    {
        match self {
            Verb::Read | Verb::Lax | Verb::Tidy => &[Slot::Schema, Slot::TypeWord, Slot::Bag],
            Verb::Build => &[Slot::Schema, Slot::TypeWord, Slot::Text],
            Verb::Prove => prove_slots(words),
            Verb::View => view_slots(words),
            Verb::Make => &[Slot::Count],
            Verb::Hash => &[Slot::Bag],
            Verb::Check => &[Slot::Schema],
        }
    }

    /// What the command answers for the words in its slots and the bytes of the files that they name, in their order.
    pub fn answer(
        self,
        alloc: Global,
        words: &[String],
        contents: &[Vec<u8>],
    ) -> Result<Vec<u8>, Stop>
        requires words { are_taken (slots_of self (map string_bytes words.now)) (map string_bytes words.now) ≡ true }
        requires files { AreShort (files_in (slots_of self (map string_bytes words.now)) (map string_bytes words.now))
            (contents_of contents.now) }
        ensures { Answers (CommandAnswers self (map string_bytes words.now) (contents_of contents.now))
            text_by result }
    {
        match self {
            Verb::Read => read_in(alloc, Mode::Whole, words, contents),
            Verb::Lax => read_in(alloc, Mode::Lax, words, contents),
            Verb::Build => build_in(alloc, words, contents),
            Verb::Tidy => tidy_in(alloc, words, contents),
            Verb::Prove => prove_in(alloc, words, contents),
            Verb::View => view_in(alloc, words, contents),
            Verb::Make => make_in(alloc, words),
            Verb::Hash => hash(alloc, bytes_at(contents, 0)),
            Verb::Check => check(alloc, bytes_at(contents, 0)),
        }
    }
}

// The longest slots of `prove`.
const PROVE: &[Slot] = &[
    Slot::Schema,
    Slot::TypeWord,
    Slot::Bag,
    Slot::Path,
    Slot::Path,
    Slot::Path,
    Slot::Path,
    Slot::Path,
    Slot::Path,
    Slot::Path,
    Slot::Path,
    Slot::Path,
    Slot::Path,
    Slot::Path,
    Slot::Path,
    Slot::Path,
    Slot::Path,
    Slot::Path,
    Slot::Path,
    Slot::Path,
    Slot::Path,
    Slot::Path,
    Slot::Path,
    Slot::Path,
    Slot::Path,
    Slot::Path,
    Slot::Path,
    Slot::Path,
    Slot::Path,
    Slot::Path,
    Slot::Path,
    Slot::Path,
    Slot::Path,
    Slot::Path,
    Slot::Path,
    Slot::Path,
    Slot::Path,
    Slot::Path,
    Slot::Path,
    Slot::Path,
    Slot::Path,
    Slot::Path,
    Slot::Path,
    Slot::Path,
    Slot::Path,
    Slot::Path,
    Slot::Path,
    Slot::Path,
    Slot::Path,
    Slot::Path,
    Slot::Path,
    Slot::Path,
    Slot::Path,
    Slot::Path,
    Slot::Path,
    Slot::Path,
    Slot::Path,
    Slot::Path,
    Slot::Path,
    Slot::Path,
    Slot::Path,
    Slot::Path,
    Slot::Path,
    Slot::Path,
    Slot::Path,
    Slot::Path,
    Slot::Path,
];

// The slots of `prove`, with as many paths as there are words left.
fn prove_slots(words: &[String]) -> &'static [Slot]
    ensures { result.now ≡ slots_with_paths (length (map string_bytes words.now)) }
{
    let most = words.len().max(3).min(67);
    &PROVE[..most]
}

// The slots of `view`, where the root hash may be left out.
fn view_slots(words: &[String]) -> &'static [Slot]
    ensures { result.now ≡ slots_by_count (length (map string_bytes words.now)) }
{
    if words.len() > 3 {
        &[Slot::Schema, Slot::TypeWord, Slot::Bag, Slot::RootHash]
    } else {
        &[Slot::Schema, Slot::TypeWord, Slot::Bag]
    }
}

fn word_at(words: &[String], number: usize) -> &str
    ensures { result.now ≡ at (map string_bytes words.now) number }
{
    match words.get(number) {
        Some(word) => word.as_str(),
        None => "",
    }
}

fn bytes_at(contents: &[Vec<u8>], number: usize) -> &[u8]
    ensures { result.now ≡ at (contents_of contents.now) number }
{
    match contents.get(number) {
        Some(bytes) => bytes.as_slice(),
        None => b"",
    }
}

// What `read` and `lax` answer.
fn read_in(
    alloc: Global,
    mode: Mode,
    words: &[String],
    contents: &[Vec<u8>],
) -> Result<Vec<u8>, Stop>
    requires schema { length (at (contents_of contents.now) 0) ≤ 1048576 }
    requires word { length (at (map string_bytes words.now) 1) ≤ 1048576 }
    ensures { Answers (Reads mode (at (map string_bytes words.now) 1) (at (contents_of contents.now) 0)
        (at (contents_of contents.now) 1)) text_by result }
{
    let schema = bytes_at(contents, 0);
    let word = word_at(words, 1);
    let bag = bytes_at(contents, 1);
    read(alloc, mode, schema, word, bag)
}

// What `build` answers.
fn build_in(alloc: Global, words: &[String], contents: &[Vec<u8>]) -> Result<Vec<u8>, Stop>
    requires schema { length (at (contents_of contents.now) 0) ≤ 1048576 }
    requires word { length (at (map string_bytes words.now) 1) ≤ 1048576 }
    ensures { Answers (Builds (at (map string_bytes words.now) 1) (at (contents_of contents.now) 0)
        (at (contents_of contents.now) 1)) text_by result }
{
    let schema = bytes_at(contents, 0);
    let name = word_at(words, 1);
    let text = bytes_at(contents, 1);
    build(alloc, schema, name, text)
}

// What `tidy` answers.
fn tidy_in(alloc: Global, words: &[String], contents: &[Vec<u8>]) -> Result<Vec<u8>, Stop>
    requires schema { length (at (contents_of contents.now) 0) ≤ 1048576 }
    requires word { length (at (map string_bytes words.now) 1) ≤ 1048576 }
    ensures { Answers (Tidies (at (map string_bytes words.now) 1) (at (contents_of contents.now) 0)
        (at (contents_of contents.now) 1)) text_by result }
{
    let schema = bytes_at(contents, 0);
    let name = word_at(words, 1);
    let bag = bytes_at(contents, 1);
    tidy(alloc, schema, name, bag)
}

// The words after the first three.
fn path_words(words: &[String]) -> &[String]
    ensures { map string_bytes result.now ≡ drop 3 (map string_bytes words.now) }
{
    match words.get(3..) {
        Some(paths) => paths,
        None => &[],
    }
}

// What `prove` answers.
fn prove_in(alloc: Global, words: &[String], contents: &[Vec<u8>]) -> Result<Vec<u8>, Stop>
    requires schema { length (at (contents_of contents.now) 0) ≤ 1048576 }
    requires word { length (at (map string_bytes words.now) 1) ≤ 1048576 }
    requires paths { length (drop 3 (map string_bytes words.now)) ≤ 64 }
    ensures { Answers (Proves (drop 3 (map string_bytes words.now)) (at (map string_bytes words.now) 1)
        (at (contents_of contents.now) 0) (at (contents_of contents.now) 1)) text_by result }
{
    let schema = bytes_at(contents, 0);
    let name = word_at(words, 1);
    let bag = bytes_at(contents, 1);
    let paths = path_words(words);
    prove(alloc, schema, name, bag, paths)
}

// What `view` answers.
fn view_in(alloc: Global, words: &[String], contents: &[Vec<u8>]) -> Result<Vec<u8>, Stop>
    requires schema { length (at (contents_of contents.now) 0) ≤ 1048576 }
    requires word { length (at (map string_bytes words.now) 1) ≤ 1048576 }
    ensures { Answers (Views (at (map string_bytes words.now) 1) (hash_of_word (at (map string_bytes words.now) 3))
        (at (contents_of contents.now) 0) (at (contents_of contents.now) 1)) text_by result }
{
    let schema = bytes_at(contents, 0);
    let name = word_at(words, 1);
    let bag = bytes_at(contents, 1);
    let root = root_hash(word_at(words, 3));
    view(alloc, schema, name, bag, root)
}

// What `make` answers.
fn make_in(alloc: Global, words: &[String]) -> Result<Vec<u8>, Stop>
    ensures { Answers (Makes (unwrap_or (count_of (at (map string_bytes words.now) 0)) 0)) text_by result }
{
    let number = count(word_at(words, 0)).unwrap_or(0);
    make(alloc, number)
}
