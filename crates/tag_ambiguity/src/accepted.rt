//! Accepted schemas.
ghost use Rattle.std.specs.Prelude.{◌≡◌, ◌<◌, ◌≤◌, IfOk, Some, length, option_map, slice_get};
ghost use Rattle.tlb_syntax.specs.Tree.{SchemaView};
ghost use Rattle.tlb_syntax.specs.View.{schema as schema_view};
ghost use Rattle.core_form.specs.Core.{Declaration};
ghost use Rattle.tlb_kinds.specs.Refusals.{kept_of};
ghost use Rattle.lead_table.specs.Heads.{AreHeads};
ghost use Rattle.schema_leads.specs.Leads.{leads as leads_of, type_count};
ghost use Rattle.schema_leads.specs.Tags.{cores};
ghost use Rattle.accepted_schema.specs.Accepted.{IsAccepted};
ghost use Rattle.accepted_schema.specs.Refusals.{TagRefusal, first_tag_refusal};
ghost use Rattle.tag_ambiguity.specs.Judged.{EntersOne, IsJudged, IsPassed, IsRefused};

use crate::error::TagError;
use crate::judge::judge;
use accepted_schema::laws::{accepted_has_no_refusal, accepted_or_refused, one_constructor};
use bit_slice::{BitSlice, BitString};
use lead_table::{Head, LeadTable, lead_table};
use sqlite_items::Items;
use std::alloc::Global;
use std::marker::Model;
use tlb_kinds::Kinded;
use tlb_memory::NoMemory;
use tlb_syntax::Schema;

/// A schema in which nothing is refused, with the tags and the leads of its constructors. Contracts see it as the schema.
#[derive(Drop)]
pub struct Accepted {
    kinded: Kinded,
    table: LeadTable,
}

impl Model for Accepted {
    ghost use Rattle.std.specs.Coded.{codes};
    ghost use Rattle.tlb_syntax.specs.declared.tree.Schema.{Schema};
    ghost use Rattle.tlb_syntax.specs.contracts.tree.Schema as e;

    ghost Value = { Schema };

    ghost coded = { Prim.hlevel (codes, e.the_row.coded) };

    ghost use Rattle.tlb_syntax.specs.View.{schema as schema_view};
    ghost use Rattle.tag_ambiguity.specs.Separated.{IsSeparated};

    ghost view = { λ a. a.kinded };

    ghost invariant = { λ a. IsSeparated (schema_view a.kinded) a.table };
}

// As many as have their first constructor at its own place.
fn count_types(heads: &[Head]) -> u32
    requires { length heads.now ≤ 4096 }
    ensures { (s : SchemaView) → AreHeads s s heads.now → result ≡ type_count (cores s) }
{
    let mut types: u32 = 0;
    for (place, head) in heads.iter().enumerate() {
        if head.of_type == place {
            types += 1;
        }
    }
    types
}

impl Accepted {
    /// The schema without the declarations that are passed over. Constructors are numbered in its order, from 0.
    pub fn schema(&self) -> &Schema
        ensures same { result.now ≡ self.now }
        ensures accepted { IsAccepted (schema_view self.now) }
        ensures kept { kept_of (schema_view self.now) ≡ schema_view self.now }
    {
        self.kinded.schema()
    }

    /// The tag of a constructor, as it is written or computed.
    pub fn tag(&self, c: u32) -> BitSlice<'_>
        requires { c < length self.now.constructors }
        ensures { option_map (λ (d : Declaration). d.core.tag) (slice_get (cores (schema_view self.now)) c)
            ≡ Some result }
    {
        self.table.heads.as_slice()[c as usize].tag.slice()
    }

    /// The leads of a constructor.
    pub fn leads(&self, c: u32) -> &[BitString]
        requires { c < length self.now.constructors }
        ensures { option_map (leads_of (cores (schema_view self.now))) (slice_get (cores (schema_view self.now)) c)
            ≡ Some result.now }
    {
        self.table.leads.as_slice()[c as usize].as_slice()
    }

    /// How many types and how many constructors are declared.
    pub fn counts(&self) -> (u32, u32)
        ensures types { result.0 ≡ type_count (cores (schema_view self.now)) }
        ensures constructors { result.1 ≡ length (cores (schema_view self.now)) }
    {
        let heads = self.table.heads.as_slice();
        (count_types(heads), heads.len() as u32)
    }
}

/// The schema with its tags and leads, where its tags are short and every two constructors of a type are told apart;
/// else the first refusal, and the schema is let go.
pub fn separate(alloc: Global, kinded: Kinded) -> Result<Accepted, TagError>
    // What is given is the schema.
    ensures same { IfOk result (λ accepted. accepted ≡ kinded) }
    // What is answered holds of the schema.
    ensures judged { IsJudged (schema_view kinded) result }
    // An accepted schema passes, unless out of memory.
    ensures passed { IsAccepted (schema_view kinded) → IsPassed result }
    // The first refusal is answered, unless out of memory.
    ensures refused { (r : TagRefusal) → first_tag_refusal (cores (schema_view kinded)) ≡ Some r
        → IsRefused r result }
    // Of the constructors of a type at most one can be entered.
    ensures one_constructor { IfOk result (λ accepted. EntersOne (schema_view accepted)) }
{
    accepted_or_refused();
    accepted_has_no_refusal();
    one_constructor();
    match judge(alloc, kinded.schema().constructors.as_slice()) {
        Ok(table) => Ok(Accepted { kinded, table }),
        Err(error) => Err(error),
    }
}

/// The leads of a constructor of a schema in which nothing is refused by its kinds.
pub fn leads(alloc: Global, kinded: &Kinded, c: u32) -> Result<Items<BitString>, NoMemory>
    requires { c < length kinded.now.constructors }
    ensures { IfOk result (λ found. option_map (leads_of (cores (schema_view kinded.now)))
        (slice_get (cores (schema_view kinded.now)) c) ≡ Some found) }
{
    let mut table = lead_table(alloc, kinded.schema().constructors.as_slice())?;
    Ok(table.leads.remove(c as usize))
}
