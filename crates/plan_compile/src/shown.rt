//! The names that fields are shown by.
ghost use Rattle.std.specs.Prelude.{◌≡◌, ◌+◌, ◌++◌, ◌<◌, IfOk, codes, decimal, option_map};
ghost use Rattle.kind_terms.specs.Positions.{shown, unnamed_name as name_of_unnamed};

use bit_slice::Name;
use std::alloc::Global;
use tlb_memory::NoMemory;

/// `_` and a number, from 1 on.
#[tactic(auto, using(crate::proofs::UnnamedNames::is_numbered_name))]
pub fn numbered(alloc: Global, number: u64) -> Result<Name, NoMemory>
    requires { 0 < number }
    ensures { IfOk result (λ n. n ≡ codes "_" ++ decimal number) }
{
    let text = format!(in alloc; "_{number}")?;
    Name::new(alloc, text.as_bytes())
}

// The name of an unnamed field that so many unnamed fields come before.
fn unnamed_name(alloc: Global, before: u32) -> Result<Name, NoMemory>
    ensures { IfOk result (λ n. n ≡ name_of_unnamed (before + 1)) }
{
    if before == 0 {
        Name::new(alloc, b"_")
    } else {
        numbered(alloc, u64::from(before) + 1)
    }
}

/// The name that a field is shown by, where so many unnamed fields come before it.
pub fn shown_name(alloc: Global, name: Option<&Name>, unnamed: u32) -> Result<Name, NoMemory>
    ensures { IfOk result (λ n. n ≡ shown (option_map (λ x. x.now) name.entry) unnamed) }
{
    match name {
        Some(name) => name.copy(alloc),
        None => unnamed_name(alloc, unnamed),
    }
}
