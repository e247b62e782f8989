//! Schemas of texts, and their plans.
ghost use Rattle.tlb_syntax.specs.Limits.{IsWithinLimits};
ghost use Rattle.tlb_syntax.specs.View.{schema as schema_view};

use field_plan::{Plan, compile};
use std::alloc::Global;
use std::process::Abort;
use tag_ambiguity::separate;
use tlb_grammar::{Schema, read_schema};
use tlb_kinds::kind_check;

/// The schema that a text writes.
pub(crate) fn schema(rt: &impl Abort, alloc: Global, text: &str) -> Schema
    ensures { IsWithinLimits (schema_view result) }
{
    assert!(rt; text.len() <= 1_048_576);
    read_schema(alloc, text.as_bytes()).expect(rt, "a schema")
}

/// The plan of the schema that a text writes.
pub(crate) fn plan(rt: &impl Abort, alloc: Global, text: &str) -> Plan {
    let kinded = kind_check(alloc, schema(rt, alloc, text)).expect(rt, "kinds");
    let accepted = separate(alloc, kinded).expect(rt, "separated constructors");
    compile(alloc, accepted).expect(rt, "memory")
}
