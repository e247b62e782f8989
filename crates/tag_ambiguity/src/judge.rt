//! The judgement of tags and leads.
ghost use Rattle.std.specs.Prelude.{◌≡◌, ◌<◌, ◌≤◌, ◌&&◌, ◌||◌, All, IfOk, Some, length, map, not, slice_get};
ghost use Rattle.std.specs.List.{list_all};
ghost use Rattle.core_form.specs.Core.{Declaration};
ghost use Rattle.lead_table.specs.Heads.{AreHeads, AreMembers};
ghost use Rattle.lead_table.specs.Tables.{IsLeadTable};
ghost use Rattle.tlb_guard.specs.Numbering.{views};
ghost use Rattle.schema_leads.specs.FirstFields.{IsGuarded};
ghost use Rattle.schema_leads.specs.Leads.{begins as begins_bits};
ghost use Rattle.schema_leads.specs.Separation.{are_apart as are_apart_leads, are_separated as are_separated_forms};
ghost use Rattle.schema_leads.specs.Tags.{cores};
ghost use Rattle.accepted_schema.specs.Refusals.{ambiguous as ambiguous_pair, of_tags, tag_too_long};
ghost use Rattle.tag_ambiguity.specs.Inputs.{inputs_by, plain_inputs};
ghost use Rattle.tag_ambiguity.specs.Judged.{Finds, IsTabled, Reports, of_types};
ghost use Rattle.tag_ambiguity.specs.Pairs.{AreMarks, AtPlaces, against_later, pairs_at};

use crate::error::TagError;
use crate::inputs::{Input, are_excluding, inputs_of};
use bit_slice::BitString;
use lead_table::{Head, LeadTable, lead_table};
use sqlite_items::Items;
use std::alloc::Global;
use tlb_kinds::{Spot, spot_of};
use tlb_memory::NoMemory;
use tlb_syntax::Constructor;

/// The longest tag that a constructor may have, in bits.
const LONGEST_TAG: u32 = 63;

// ---- refusals

fn spot_at(alloc: Global, constructors: &[Constructor], place: usize) -> Result<Spot, NoMemory>
    requires few { length constructors.now ≤ 4096 }
    requires within { place < length constructors.now }
    ensures of_type { IfOk result (λ found. (d : Declaration)
        → slice_get (cores (views constructors.now)) place ≡ Some d → found.type_name ≡ d.of_type) }
    ensures shown { IfOk result (λ found. (d : Declaration)
        → slice_get (cores (views constructors.now)) place ≡ Some d → found.constructor ≡ d.shown) }
{
    spot_of(alloc, &constructors[..place], &constructors[place], &[])
}

fn too_long(alloc: Global, constructors: &[Constructor], place: usize) -> TagError
    requires few { length constructors.now ≤ 4096 }
    requires within { place < length constructors.now }
    ensures { (d : Declaration) → slice_get (cores (views constructors.now)) place ≡ Some d
        → Reports (tag_too_long d.of_type d.shown) result }
{
    match spot_at(alloc, constructors, place) {
        Ok(found) => TagError::TagTooLong(found.type_name, found.constructor),
        Err(_) => TagError::NoMemory,
    }
}

fn ambiguous(alloc: Global, constructors: &[Constructor], first: usize, second: usize) -> TagError
    requires few { length constructors.now ≤ 4096 }
    requires first { first < length constructors.now }
    requires second { second < length constructors.now }
    ensures { AtPlaces (views constructors.now) first second
        (λ d e. Reports (ambiguous_pair d.of_type d.shown e.shown) result) }
{
    let Ok(found) = spot_at(alloc, constructors, first) else {
        return TagError::NoMemory;
    };
    match spot_at(alloc, constructors, second) {
        Ok(other) => TagError::Ambiguous(found.type_name, found.constructor, other.constructor),
        Err(_) => TagError::NoMemory,
    }
}

// ---- tags

/// No tag has more than 63 bits.
fn judge_tags(alloc: Global, constructors: &[Constructor], heads: &[Head]) -> Result<(), TagError>
    requires few { length constructors.now ≤ 4096 }
    requires heads { AreHeads (views constructors.now) (views constructors.now) heads.now }
    ensures { Finds (of_tags (cores (views constructors.now))) result }
{
    for (place, head) in heads.iter().enumerate() {
        if head.tag.slice().len() > LONGEST_TAG {
            return Err(too_long(alloc, constructors, place));
        }
    }
    Ok(())
}

// ---- two constructors

fn begins(lead: &BitString, bits: &BitString) -> bool
    ensures { result ≡ begins_bits lead.now bits.now }
{
    bits.slice().begins_with(lead.slice())
}

// Neither lead begins the other.
fn is_apart(lead: &BitString, other: &BitString) -> bool
    ensures { result ≡ not (begins_bits lead.now other.now || begins_bits other.now lead.now) }
{
    !(begins(lead, other) || begins(other, lead))
}

fn is_apart_from(lead: &BitString, others: &[BitString]) -> bool
    ensures { result ≡ list_all (λ k. not (begins_bits lead.now k || begins_bits k lead.now)) others.now }
{
    others.iter().all(|other| is_apart(lead, other))
}

fn are_apart(leads: &[BitString], others: &[BitString]) -> bool
    ensures { result ≡ are_apart_leads leads.now others.now }
{
    leads.iter().all(|lead| is_apart_from(lead, others))
}

/// What the constructors of a schema are told apart by: the leads and the inputs of each.
#[derive(Clone, Copy)]
struct Marks<'a> {
    constructors: &'a [Constructor],
    leads: &'a [Items<BitString>],
    inputs: &'a [Items<Input>],
}

fn are_separated(marks: &Marks<'_>, first: usize, second: usize) -> bool
    requires marks { AreMarks (views marks.now.constructors.now) marks.now.leads.now marks.now.inputs.now }
    requires first { first < length marks.now.constructors.now }
    requires second { second < length marks.now.constructors.now }
    ensures { AtPlaces (views marks.now.constructors.now) first second
        (λ d e. result ≡ are_separated_forms (cores (views marks.now.constructors.now)) d e) }
{
    are_apart(
        marks.leads[first].as_slice(),
        marks.leads[second].as_slice(),
    ) || are_excluding(
        marks.inputs[first].as_slice(),
        marks.inputs[second].as_slice(),
    )
}

// ---- the constructors of a type

// The constructor is separated from each of those.
fn judge_against(
    alloc: Global,
    marks: &Marks<'_>,
    first: usize,
    others: &[usize],
) -> Result<(), TagError>
    requires few { length marks.now.constructors.now ≤ 4096 }
    requires marks { AreMarks (views marks.now.constructors.now) marks.now.leads.now marks.now.inputs.now }
    requires first { first < length marks.now.constructors.now }
    requires others { All (λ i. i < length marks.now.constructors.now) others.now }
    ensures { Finds (against_later (cores (views marks.now.constructors.now))
        (slice_get (cores (views marks.now.constructors.now)) first) others.now) result }
{
    for second in others {
        if !are_separated(marks, first, *second) {
            return Err(ambiguous(alloc, marks.constructors, first, *second));
        }
    }
    Ok(())
}

// Every two of these constructors are separated.
fn judge_members(alloc: Global, marks: &Marks<'_>, members: &[usize]) -> Result<(), TagError>
    requires few { length marks.now.constructors.now ≤ 4096 }
    requires marks { AreMarks (views marks.now.constructors.now) marks.now.leads.now marks.now.inputs.now }
    requires members { All (λ i. i < length marks.now.constructors.now) members.now }
    ensures { Finds (pairs_at (cores (views marks.now.constructors.now)) members.now) result }
{
    for (index, first) in members.iter().enumerate() {
        judge_against(alloc, marks, *first, &members[index + 1..])?;
    }
    Ok(())
}

// Every two constructors of a type are separated; types come in the order of their first constructors.
fn judge_types(
    alloc: Global,
    marks: &Marks<'_>,
    heads: &[Head],
    members: &[Items<usize>],
) -> Result<(), TagError>
    requires few { length marks.now.constructors.now ≤ 4096 }
    requires marks { AreMarks (views marks.now.constructors.now) marks.now.leads.now marks.now.inputs.now }
    requires heads { AreHeads (views marks.now.constructors.now) (views marks.now.constructors.now) heads.now }
    requires members { AreMembers heads.now members.now }
    requires size { length members.now ≡ length heads.now }
    ensures { Finds (of_types (cores (views marks.now.constructors.now))) result }
{
    for (place, head) in heads.iter().enumerate() {
        if head.of_type == place {
            judge_members(alloc, marks, members[place].as_slice())?;
        }
    }
    Ok(())
}

// ---- the whole schema

fn all_inputs(alloc: Global, constructors: &[Constructor]) -> Result<Items<Items<Input>>, NoMemory>
    ensures { IfOk result (λ inputs. map inputs_by inputs
        ≡ map (λ (d : Declaration). plain_inputs d.core.inputs) (cores (views constructors.now))) }
{
    let mut inputs = Items::new(alloc);
    for constructor in constructors {
        inputs.push(inputs_of(alloc, constructor)?)?;
    }
    Ok(inputs)
}

/// The tags and leads of a schema in which nothing is passed over and no type leads back to itself, where its tags are
/// short and its constructors are told apart; else the first refusal.
pub fn judge(alloc: Global, constructors: &[Constructor]) -> Result<LeadTable, TagError>
    requires few { length constructors.now ≤ 4096 }
    requires guarded { IsGuarded (views constructors.now) }
    ensures { IsTabled (views constructors.now) result }
{
    let table = lead_table(alloc, constructors)?;
    judge_tags(alloc, constructors, table.heads.as_slice())?;
    let inputs = all_inputs(alloc, constructors)?;
    let marks = Marks {
        constructors,
        leads: table.leads.as_slice(),
        inputs: inputs.as_slice(),
    };
    judge_types(
        alloc,
        &marks,
        table.heads.as_slice(),
        table.members.as_slice(),
    )?;
    Ok(table)
}
