//! The index.
ghost use Rattle.std.specs.Prelude.{◌≡◌, ◌+◌, ◌<◌, ◌∷◌, ◌++◌, ◌^◌, [], IfOk, OnOk, length, map};
ghost use Rattle.tlb_syntax.specs.Tree.{SchemaView};
ghost use Rattle.tlb_syntax.specs.View.{constructor};
ghost use Rattle.kind_terms.specs.Dictionaries.{of_type};
ghost use Rattle.kind_terms.specs.Types.{first_kinds};
ghost use Rattle.type_index.specs.Index.{AreEntries, IsTypeIndex, constructors_at, constructors_by};
ghost use Rattle.type_index.specs.Index.{kinds_at, kinds_by, places_of};

use kind_terms::{TermKind, kinds};
use sqlite_items::Items;
use std::alloc::{AllocError, Global};
use std::collections::BTreeMap;
use tlb_memory::NoMemory;
use tlb_syntax::Constructor;

/// What a schema has of one type.
#[derive(Drop)]
pub struct TypeEntry {
    /// The kinds of its parameters, which its first constructor fixes.
    pub kinds: Items<TermKind>,
    /// The numbers of its constructors in the schema, from 0, in order.
    pub constructors: Items<u32>,
}

/// The types of a schema by their names.
#[derive(Drop)]
pub struct TypeIndex {
    pub by_name: BTreeMap<Vec<u8>, TypeEntry>,
}

// The first constructor of its type, which has this number.
fn add_type(
    alloc: Global,
    by_name: &mut BTreeMap<Vec<u8>, TypeEntry>,
    added: &Constructor,
    number: u32,
) -> Result<(), AllocError>
    ensures { OnOk result
        ((s : SchemaView) → length s ≡ number → of_type s added.now.result ≡ [] → AreEntries by_name.old s
        → AreEntries by_name.new (s ++ constructor added.now ∷ [])) }
{
    let kinds = kinds(alloc, added)?;
    let mut constructors = Items::new(alloc);
    constructors.push(number)?;
    let name = added.result.text().to_vec(alloc)?;
    let entry = TypeEntry {
        kinds,
        constructors,
    };
    by_name.insert(name, entry)?;
    Ok(())
}

fn add(
    alloc: Global,
    by_name: &mut BTreeMap<Vec<u8>, TypeEntry>,
    added: &Constructor,
    number: u32,
) -> Result<(), AllocError>
    ensures { OnOk result
        ((s : SchemaView) → length s ≡ number → AreEntries by_name.old s
        → AreEntries by_name.new (s ++ constructor added.now ∷ [])) }
{
    match by_name.get_mut(added.result.text()) {
        None => add_type(alloc, by_name, added, number),
        Some(entry) => entry.constructors.push(number),
    }
}

impl TypeIndex {
    /// The index of these constructors.
    pub fn of(alloc: Global, constructors: &[Constructor]) -> Result<TypeIndex, NoMemory>
        requires { length constructors.now < 2 ^ 32 }
        ensures { IfOk result (λ index. IsTypeIndex index (map constructor constructors.now)) }
    {
        let mut by_name = BTreeMap::new(alloc);
        for (number, constructor) in constructors.iter().enumerate() {
            add(alloc, &mut by_name, constructor, number as u32)?;
        }
        Ok(TypeIndex { by_name })
    }

    /// What the schema has of the type of this name, if it declares one.
    pub fn find(&self, name: &[u8]) -> Option<&TypeEntry>
        ensures kinds { kinds_by result ≡ kinds_at self.now name.now }
        ensures constructors { constructors_by result ≡ constructors_at self.now name.now }
        // And so, of the index of a schema, what the schema has.
        ensures schema { (s : SchemaView) → IsTypeIndex self.now s
            → (kinds_by result ≡ first_kinds (of_type s name.now)) × (constructors_by result ≡ places_of s name.now) }
    {
        self.by_name.get(name)
    }
}
