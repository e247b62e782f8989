//! The words of paths.
ghost use Rattle.std.specs.Prelude.{◌≤◌, IfOk, length, map, string_bytes};
ghost use Rattle.pruned_proof.specs.Proved.{path_views};
ghost use Rattle.cli_stages.specs.PathWords.{AreBegun};

use std::alloc::{AllocError, Global};
use tlb_memory::NoMemory;
use typed_value::Path;
use value_text::{PathError, parse_path};

/// The paths of words up to the first word that writes none, and the number of that word.
#[derive(Drop)]
pub(crate) struct Begun {
    pub paths: Vec<Path>,
    pub bad: Option<u32>,
}

/// What the words write, from the first on.
pub(crate) fn paths_of(alloc: Global, words: &[String]) -> Result<Begun, NoMemory>
    requires { length words.now ≤ 64 }
    ensures { IfOk result (λ b. AreBegun 1 (map string_bytes words.now) (path_views b.paths.items) b.bad
        × (length b.paths.items ≤ length words.now)) }
{
    let mut paths = Vec::new(alloc);
    let mut number = 1u32;
    'words: for word in words {
        match parse_path(alloc, word.as_str()) {
            Ok(path) => {
                paths.push(path).map_err(AllocError::from)?;
            }
            Err(PathError::BadPath(_)) => {
                return Ok(Begun {
                    paths,
                    bad: Some(number),
                });
            }
            Err(PathError::NoMemory) => return Err(NoMemory),
        }
        number += 1;
    }
    Ok(Begun { paths, bad: None })
}
