//! Sets of leads.
ghost use Rattle.std.specs.Prelude.{◌≡◌, ◌<◌, ◌≤◌, ◌*◌, All, IfOk, OnOk, [], bytes_eq, length};
ghost use Rattle.std.specs.List.{list_any};
ghost use Rattle.bit_slice.specs.Bits.{bits_from};
ghost use Rattle.schema_leads.specs.Leads.{any_bits as any_bits_alone, at_most_64, hashmap_e_leads, hashmap_leads};
ghost use Rattle.schema_leads.specs.Leads.{with_lead, with_leads};
ghost use Rattle.lead_table.specs.Chains.{done_leads};
ghost use Rattle.lead_table.specs.Heads.{leads_by, leads_first, leads_of_members};

use crate::first::First;
use crate::heads::Head;
use bit_slice::BitString;
use sqlite_items::{Items, at};
use std::alloc::Global;
use tlb_memory::NoMemory;

/// A set of more leads is the empty lead alone.
const MOST: usize = 64;

/// How far the leads of a type are known.
#[derive(Drop)]
pub enum Entry {
    Unseen,
    /// The type stands in the chain that is followed.
    Open,
    Done(Items<BitString>),
}

fn lead(alloc: Global, bits: &[u8], count: u32) -> Result<BitString, NoMemory>
    requires short { count ≤ 1023 }
    requires within { count ≤ 8 * length bits.now }
    ensures { IfOk result (λ lead. lead ≡ bits_from bits.now 0 count) }
{
    BitString::from_bytes(alloc, bits, count)
}

fn is_same(lead: &BitString, other: &BitString) -> bool
    ensures { result ≡ bytes_eq lead.now other.now }
{
    lead.slice().same(other.slice())
}

fn has_lead(leads: &[BitString], lead: &BitString) -> bool
    ensures { result ≡ list_any (bytes_eq lead.now) leads.now }
{
    leads.iter().any(|other| is_same(lead, other))
}

fn add_lead(alloc: Global, leads: &mut Items<BitString>, more: &BitString) -> Result<(), NoMemory>
    ensures { OnOk result (leads.new ≡ with_lead leads.old more.now) }
{
    if has_lead(leads.as_slice(), more) {
        return Ok(());
    }
    leads.push(BitString::from_slice(alloc, more.slice())?)?;
    Ok(())
}

fn add_leads(
    alloc: Global,
    leads: &mut Items<BitString>,
    more: &[BitString],
) -> Result<(), NoMemory>
    ensures { OnOk result (leads.new ≡ with_leads leads.old more.now) }
{
    for lead in more {
        add_lead(alloc, leads, lead)?;
    }
    Ok(())
}

fn any_bits(alloc: Global) -> Result<Items<BitString>, NoMemory>
    ensures { IfOk result (λ leads. leads ≡ any_bits_alone) }
{
    let mut leads = Items::new(alloc);
    leads.push(lead(alloc, &[], 0)?)?;
    Ok(leads)
}

// 0, 10 and 11.
fn label_leads(alloc: Global) -> Result<Items<BitString>, NoMemory>
    ensures { IfOk result (λ leads. leads ≡ hashmap_leads) }
{
    let mut leads = Items::new(alloc);
    leads.push(lead(alloc, &[0x00], 1)?)?;
    leads.push(lead(alloc, &[0x80], 2)?)?;
    leads.push(lead(alloc, &[0xc0], 2)?)?;
    Ok(leads)
}

// 0 and 1.
fn root_bit_leads(alloc: Global) -> Result<Items<BitString>, NoMemory>
    ensures { IfOk result (λ leads. leads ≡ hashmap_e_leads) }
{
    let mut leads = Items::new(alloc);
    leads.push(lead(alloc, &[0x00], 1)?)?;
    leads.push(lead(alloc, &[0x80], 1)?)?;
    Ok(leads)
}

fn copies(alloc: Global, leads: &[BitString]) -> Result<Items<BitString>, NoMemory>
    ensures { IfOk result (λ copies. copies ≡ leads.now) }
{
    let mut copies = Items::new(alloc);
    for lead in leads {
        copies.push(BitString::from_slice(alloc, lead.slice())?)?;
    }
    Ok(copies)
}

fn leads_of_entry(alloc: Global, table: &[Entry], of: usize) -> Result<Items<BitString>, NoMemory>
    ensures { IfOk result (λ leads. leads ≡ done_leads table.now of) }
{
    match at(table, of) {
        Some(Entry::Done(leads)) => copies(alloc, leads.as_slice()),
        Some(Entry::Unseen) | Some(Entry::Open) | None => Ok(Items::new(alloc)),
    }
}

fn first_leads(alloc: Global, first: First, table: &[Entry]) -> Result<Items<BitString>, NoMemory>
    ensures { IfOk result (λ leads. leads ≡ leads_first (done_leads table.now) first) }
{
    match first {
        First::Anything => any_bits(alloc),
        First::Label => label_leads(alloc),
        First::RootBit => root_bit_leads(alloc),
        First::Declared(of) => leads_of_entry(alloc, table, of),
    }
}

/// The leads of a constructor, by those of the types.
pub fn head_leads(alloc: Global, head: &Head, table: &[Entry]) -> Result<Items<BitString>, NoMemory>
    ensures { IfOk result (λ leads. leads ≡ leads_by (done_leads table.now) head.now) }
{
    if head.tag.slice().len() == 0 {
        return first_leads(alloc, head.first, table);
    }
    let mut leads = Items::new(alloc);
    leads.push(BitString::from_slice(alloc, head.tag.slice())?)?;
    Ok(leads)
}

/// The leads of these constructors together, or the empty lead alone where they are more than 64.
pub fn type_leads(
    alloc: Global,
    heads: &[Head],
    members: &[usize],
    table: &[Entry],
) -> Result<Items<BitString>, NoMemory>
    requires { All (λ i. i < length heads.now) members.now }
    ensures { IfOk result (λ leads. leads
        ≡ at_most_64 (with_leads [] (leads_of_members (done_leads table.now) heads.now members.now))) }
{
    let mut leads = Items::new(alloc);
    for place in members {
        let more = head_leads(alloc, &heads[*place], table)?;
        add_leads(alloc, &mut leads, more.as_slice())?;
        if leads.len() > MOST {
            return any_bits(alloc);
        }
    }
    Ok(leads)
}
