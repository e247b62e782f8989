//! The rules at one constructor.
ghost use Rattle.std.specs.Prelude.{◌≡◌, [], map};
ghost use Rattle.tlb_syntax.specs.Limits.{IsConstructor};
ghost use Rattle.tlb_syntax.specs.View.{constructor as constructor_view};
ghost use Rattle.kind_declarations.specs.Faults.{Judges};
ghost use Rattle.kind_declarations.specs.Nodes.{constructor_nodes};
ghost use Rattle.kind_terms.specs.Views.{part_by};

use crate::endings::judge_endings;
use crate::error::Fault;
use crate::records::judge_record;
use kind_terms::{Shown, Types, inputs};
use sqlite_items::Items;
use std::alloc::Global;
use tlb_syntax::Constructor;

/// The items of a constructor, then its outputs, then its implicit fields once more, after all declarations of types.
/// On a refusal the path leads to the item at fault.
pub fn judge_constructor<'a>(
    alloc: Global,
    types: &Types<'a>,
    constructor: &'a Constructor,
    path: &mut Items<Shown<'a>>,
) -> Result<(), Fault>
    requires { IsConstructor (constructor_view constructor.now) }
    ensures { Judges (constructor_nodes (map constructor_view types.now) (constructor_view constructor.now))
        (map part_by path.new) result }
{
    judge_record(alloc, types, constructor, path)?;
    let inputs = inputs(alloc, constructor)?;
    judge_endings(
        alloc,
        types,
        constructor.items.as_slice(),
        inputs.as_slice(),
        path,
    )
}
