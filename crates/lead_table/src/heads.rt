//! What the leads of each constructor come from.
ghost use Rattle.std.specs.Prelude.{◌≡◌, All, IfOk, length};
ghost use Rattle.tlb_syntax.specs.View.{constructor as constructor_view};
ghost use Rattle.tlb_guard.specs.Numbering.{views};
ghost use Rattle.lead_table.specs.Heads.{AreHeads, IsHead, IsTypeBelow};

use crate::first::{First, first_of};
use crate::tag::tag_of;
use bit_slice::BitString;
use sqlite_items::Items;
use std::alloc::Global;
use tlb_guard::Types;
use tlb_memory::NoMemory;
use tlb_syntax::Constructor;

/// The head of a constructor: the number of its type, its tag, and what its items begin with.
#[derive(Drop)]
pub struct Head {
    pub of_type: usize,
    pub tag: BitString,
    pub first: First,
}

fn head_of(alloc: Global, types: &Types<'_>, constructor: &Constructor) -> Result<Head, NoMemory>
    ensures { IfOk result (λ head. IsHead (views types.now) (constructor_view constructor.now) head) }
{
    let of_type = types.place(&constructor.result).ok_or(NoMemory)?;
    let tag = tag_of(alloc, constructor)?;
    let first = first_of(alloc, types, constructor.items.as_slice())?;
    Ok(Head {
        of_type,
        tag,
        first,
    })
}

/// The heads of the constructors, in order.
pub fn heads_of(alloc: Global, types: &Types<'_>) -> Result<Items<Head>, NoMemory>
    ensures { IfOk result (λ heads. AreHeads (views types.now) (views types.now) heads) }
{
    let mut heads = Items::new(alloc);
    for constructor in types.constructors() {
        heads.push(head_of(alloc, types, constructor)?)?;
    }
    Ok(heads)
}
