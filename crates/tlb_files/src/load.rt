//! The files of a command, loaded one after the other.
ghost use Rattle.std.specs.Prelude.{◌≡◌, ◌≤◌, ◌<◌, ◌+◌, ◌^◌, All, length, IfErr, IfOk, IfSome, IsErrOf};
ghost use Rattle.tlb_edge.specs.Causes.{Rose, counted};
ghost use Rattle.tlb_edge.specs.Files.{reported_at};
ghost use Rattle.tlb_files.specs.Counts.{RoseAtMost, counts};
ghost use Rattle.tlb_files.specs.Loads.{LoadsAll, Stops};
ghost use Rattle.tlb_files.specs.View.{contents_of, files_by};
ghost use Rattle.tlb_files.specs.declared.load.FileError.TheVariants.{Fault, NoMemory as OutOfMemory};

use std::alloc::{AllocError, Global};
use tlb_edge::{Failed, Shelf};

/// The name of a file, with the most bytes that it may have.
#[derive(Clone, Copy)]
pub struct File<'a> {
    pub name: &'a str,
    pub limit: u32,
}

/// Why files could not be loaded.
#[derive(Clone, Copy)]
pub enum LoadError<'a> {
    /// A call of the shelf failed at this file.
    Fault(File<'a>),
    /// This file has more bytes than its limit.
    TooLong(File<'a>),
    NoMemory,
}

// Why one file could not be loaded.
#[derive(Clone, Copy)]
enum FileError {
    Fault,
    TooLong,
    NoMemory,
}

impl From<Failed> for FileError {
    ghost from_gives = { λ _ e. e ≡ Fault };

    fn from(_: Failed) -> Self {
        FileError::Fault
    }
}

impl From<AllocError> for FileError {
    ghost from_gives = { λ _ e. e ≡ OutOfMemory };

    fn from(_: AllocError) -> Self {
        FileError::NoMemory
    }
}

// The most bytes that one read asks for.
const READ_SIZE: usize = 4096;

// The whole file, read until a read answers 0. At most one byte past the limit is taken.
fn load<H: Shelf>(
    alloc: Global,
    shelf: &mut H,
    name: &str,
    limit: u32,
) -> Result<Vec<u8>, FileError>
    ensures held { H.held shelf.new ≡ H.held shelf.old }
    ensures opens { H.opens shelf.new ≡ counted (H.opens shelf.old) 1 }
    ensures reads { RoseAtMost (H.given shelf.new + 1) (H.reads shelf.old) (H.reads shelf.new) }
    ensures taken { H.given shelf.new ≤ limit + 1 }
    ensures short { IfOk result (λ bytes. length bytes.items ≤ limit) }
    ensures bytes { IfOk result (λ bytes. IfSome (reported_at (H.held shelf.old) name.now)
        (λ held. bytes.items ≡ held)) }
    ensures given { IfOk result (λ bytes. H.given shelf.new ≡ length bytes.items) }
    ensures too_long { IsErrOf result FileError.TooLong → limit < H.given shelf.new }
    ensures held_long { IsErrOf result FileError.TooLong → IfSome (reported_at (H.held shelf.old) name.now)
        (λ held. limit < length held) }
    ensures fault { IsErrOf result FileError.Fault → Rose (H.faults shelf.old) (H.faults shelf.new) }
    ensures calm { (IsErrOf result FileError.Fault → ⊥) → H.faults shelf.new ≡ H.faults shelf.old }
{
    let limit = limit as usize;
    shelf.open(name)?;
    let mut bytes = Vec::new(alloc);
    let mut piece = [0u8; READ_SIZE];
    'pieces: while bytes.len() <= limit {
        let room = (limit - bytes.len() + 1).min(READ_SIZE);
        let count = shelf.read(&mut piece[..room])?;
        if count == 0 {
            return Ok(bytes);
        }
        bytes.extend_from_slice(&piece[..count])?;
    }
    Err(FileError::TooLong)
}

/// The bytes of each of the files, which are loaded in their order.
pub fn load_all<'a, H: Shelf>(
    alloc: Global,
    shelf: &mut H,
    files: &[File<'a>],
) -> Result<Vec<Vec<u8>>, LoadError<'a>>
    ensures held { H.held shelf.new ≡ H.held shelf.old }
    ensures loaded { IfOk result (λ contents. LoadsAll (H.held shelf.old) (files_by files.now)
        (counts (H.opens shelf.old) (H.given shelf.old) (H.reads shelf.old) (H.faults shelf.old))
        (counts (H.opens shelf.new) (H.given shelf.new) (H.reads shelf.new) (H.faults shelf.new))
        (contents_of contents.items)) }
    ensures stops { IfErr result (λ error. Stops (H.held shelf.old) (files_by files.now)
        (counts (H.opens shelf.old) (H.given shelf.old) (H.reads shelf.old) (H.faults shelf.old))
        (counts (H.opens shelf.new) (H.given shelf.new) (H.reads shelf.new) (H.faults shelf.new)) error) }
{
    let mut contents = Vec::new(alloc);
    'files: for (place, file) in files.iter().enumerate() {
        match load(alloc, shelf, file.name, file.limit) {
            Ok(bytes) => match contents.push(bytes) {
                Ok(()) => {}
                Err(_) => return Err(LoadError::NoMemory),
            },
            Err(FileError::Fault) => return Err(LoadError::Fault(*file)),
            Err(FileError::TooLong) => return Err(LoadError::TooLong(*file)),
            Err(FileError::NoMemory) => return Err(LoadError::NoMemory),
        }
    }
    Ok(contents)
}
