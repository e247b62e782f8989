//! Copies of closed types.
ghost use Rattle.std.specs.Prelude.{◌≡◌, IfOk};

use crate::tree::{ClosedArg, ClosedType};
use sqlite_items::{Boxed, Items};
use std::alloc::Global;
use tlb_memory::NoMemory;

impl ClosedType {
    /// An equal type.
    pub fn copy(&self, alloc: Global) -> Result<ClosedType, NoMemory>
        ensures { IfOk result (λ t. t ≡ self.now) }
    {
        copy_type(alloc, self)
    }
}

#[cycle(copy)]
fn copy_type(alloc: Global, from: &ClosedType) -> Result<ClosedType, NoMemory>
    ensures { IfOk result (λ t. t ≡ from.now) }
{
    match from {
        ClosedType::Named(name, args) => {
            let name = name.copy(alloc)?;
            Ok(ClosedType::Named(name, copy_args(alloc, args.as_slice())?))
        }
        ClosedType::Nat32 => Ok(ClosedType::Nat32),
        ClosedType::Bits(n) => Ok(ClosedType::Bits(*n)),
        ClosedType::Below(n) => Ok(ClosedType::Below(*n)),
        ClosedType::UpTo(n) => Ok(ClosedType::UpTo(*n)),
        ClosedType::Uint(n) => Ok(ClosedType::Uint(*n)),
        ClosedType::Int(n) => Ok(ClosedType::Int(*n)),
        ClosedType::BitStr(n) => Ok(ClosedType::BitStr(*n)),
        ClosedType::Ref(inner) => Ok(ClosedType::Ref(copy_boxed(alloc, inner)?)),
        ClosedType::Repeat(n, inner) => Ok(ClosedType::Repeat(*n, copy_boxed(alloc, inner)?)),
        ClosedType::Whole => Ok(ClosedType::Whole),
        ClosedType::Dict(n, inner) => Ok(ClosedType::Dict(*n, copy_boxed(alloc, inner)?)),
        ClosedType::DictE(n, inner) => Ok(ClosedType::DictE(*n, copy_boxed(alloc, inner)?)),
    }
}

#[cycle(copy)]
fn copy_boxed(alloc: Global, from: &Boxed<ClosedType>) -> Result<Boxed<ClosedType>, NoMemory>
    ensures { IfOk result (λ t. t ≡ from.now) }
{
    let copy = copy_type(alloc, from.get())?;
    Ok(Boxed::new(alloc, copy)?)
}

#[cycle(copy)]
fn copy_args(alloc: Global, args: &[ClosedArg]) -> Result<Items<ClosedArg>, NoMemory>
    ensures { IfOk result (λ copies. copies ≡ args.now) }
{
    let mut copies = Items::new(alloc);
    for arg in args {
        copies.push(copy_arg(alloc, arg)?)?;
    }
    Ok(copies)
}

#[cycle(copy)]
fn copy_arg(alloc: Global, arg: &ClosedArg) -> Result<ClosedArg, NoMemory>
    ensures { IfOk result (λ copy. copy ≡ arg.now) }
{
    match arg {
        ClosedArg::Nat(n) => Ok(ClosedArg::Nat(*n)),
        ClosedArg::Ty(t) => Ok(ClosedArg::Ty(copy_type(alloc, t)?)),
    }
}
