//! Names in scope.
ghost use Rattle.std.specs.Prelude.{◌≡◌, ◌++◌, OnOk, option_map};
ghost use Rattle.tlb_syntax.specs.View.{item as item_view};
ghost use Rattle.schema_core.specs.Names.{declares, meaning as meaning_of, number_called as number_slot_of};
ghost use Rattle.plan_compile.specs.Views.{names_by, variable_by};

use bit_slice::Name;
use kind_terms::is_field_of_numbers;
use sqlite_items::Items;
use tlb_memory::NoMemory;
use tlb_syntax::{Item, ParamKind};

/// What a name in scope stands for: a variable of numbers or of types by its slot, or another field.
#[derive(Clone, Copy)]
pub enum Variable {
    Number(u32),
    Type(u32),
    Other,
}

/// A name in scope.
#[derive(Clone, Copy)]
pub struct InScope<'a> {
    pub name: &'a Name,
    pub variable: Variable,
}

/// What the first of these names that is the same stands for.
pub fn meaning(names: &[InScope<'_>], name: &Name) -> Option<Variable>
    ensures { option_map variable_by result ≡ meaning_of (names_by names.now) name.now }
{
    for entry in names {
        if entry.name.text() == name.text() {
            return Some(entry.variable);
        }
    }
    None
}

/// The slot of the variable of numbers of that name.
pub fn number_called(names: &[InScope<'_>], name: &Name) -> Option<u32>
    ensures { result ≡ number_slot_of (names_by names.now) name.now }
{
    match meaning(names, name) {
        Some(Variable::Number(slot)) => Some(slot),
        Some(Variable::Type(_)) | Some(Variable::Other) | None => None,
    }
}

/// Brings into scope what an item declares, where its own variable has this slot.
pub fn declare<'a>(
    names: &mut Items<InScope<'a>>,
    item: &'a Item,
    slot: u32,
) -> Result<(), NoMemory>
    ensures { OnOk result (names_by names.new ≡ names_by names.old ++ declares (item_view item.now) slot) }
{
    match item {
        Item::Implicit(name, kind) => {
            let variable = match kind {
                ParamKind::Nat => Variable::Number(slot),
                ParamKind::Ty => Variable::Type(slot),
            };
            names.push(InScope { name, variable })?;
            Ok(())
        }
        Item::Check(_, _, _) => Ok(()),
        Item::Explicit(None, _) => Ok(()),
        Item::Explicit(Some(name), ty) => {
            let variable = if is_field_of_numbers(ty) {
                Variable::Number(slot)
            } else {
                Variable::Other
            };
            names.push(InScope { name, variable })?;
            Ok(())
        }
    }
}
