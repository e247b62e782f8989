//! The whole check.
ghost use Rattle.std.specs.Prelude.{◌≡◌, ◌≢◌, ◌+◌, ◌≤◌, All, Err, List, Some, [], length, map};
ghost use Rattle.tlb_syntax.specs.Limits.{AreConstructors, IsWithinLimits};
ghost use Rattle.tlb_syntax.specs.View.{constructor as constructor_view, schema as schema_view};
ghost use Rattle.kind_terms.specs.Dictionaries.{without_dictionaries as without_dictionaries_of};
ghost use Rattle.kind_declarations.specs.Faults.{Judges};
ghost use Rattle.kind_declarations.specs.Nodes.{Judged};
ghost use Rattle.kind_terms.specs.Views.{part_by};
ghost use Rattle.tlb_kinds.specs.Answers.{Finds, IsFirst, IsJudged, IsPassed, IsRefused};
ghost use Rattle.tlb_kinds.specs.Kept.{IsNoDictionary, IsOrdinary};
ghost use Rattle.tlb_kinds.specs.Refusals.{IsKinded, first_refusal, of_contents, of_guard, of_headings};
ghost use Rattle.tlb_kinds.specs.Refusals.{ordinary as ordinary_of, refusals_within};
ghost use Rattle.tlb_kinds.specs.Spots.{heading, refusals_at};
ghost use Rattle.tlb_kinds.specs.declared.error.KindError.{KindError as Refused};

use crate::error::{KindError, refusal_for};
use crate::places::{item_spot, spot};
use kind_declarations::{Fault, judge_constructor, judge_heading};
use kind_terms::{Shown, Types, is_dictionary};
use sqlite_items::Items;
use std::alloc::Global;
use std::marker::Model;
use tlb_guard::first_unguarded;
use tlb_syntax::{Constructor, Schema};

/// A schema in which nothing is refused, within the limits of a text, and without the declarations that are passed over.
/// Contracts see it as the schema.
#[derive(Drop)]
pub struct Kinded {
    schema: Schema,
}

impl Model for Kinded {
    ghost use Rattle.std.specs.Coded.{codes};
    ghost use Rattle.tlb_syntax.specs.declared.tree.Schema.{Schema};
    ghost use Rattle.tlb_syntax.specs.contracts.tree.Schema as e;

    ghost Value = { Schema };

    ghost coded = { Prim.hlevel (codes, e.the_row.coded) };

    ghost use Rattle.tlb_syntax.specs.View.{schema as schema_view};
    ghost use Rattle.tlb_kinds.specs.Kept.{IsKept};

    ghost view = { λ k. k.schema };

    ghost invariant = { λ k. IsKept (schema_view k.schema) };
}

impl Kinded {
    /// The schema without the declarations of exotic cells and of dictionaries.
    pub fn schema(&self) -> &Schema
        ensures same { result.now ≡ self.now }
        ensures kinded { IsKinded (schema_view self.now) }
        ensures within { IsWithinLimits (schema_view self.now) }
        ensures ordinary { All IsOrdinary (schema_view self.now) }
        ensures no_dictionaries { All IsNoDictionary (schema_view self.now) }
    {
        &self.schema
    }
}

// The refusal of what is judged in a declaration after these.
fn refusal(
    alloc: Global,
    before: &[Constructor],
    constructor: &Constructor,
    path: &[Shown<'_>],
    fault: Fault,
) -> KindError
    requires { length before.now ≤ 4096 }
    ensures { (js : List Judged) → Judges js (map part_by path.now) (Err fault)
        → IsFirst (refusals_at (heading (map constructor_view before.now) (constructor_view constructor.now)) js)
        result }
{
    match fault {
        Fault::NoMemory => KindError::NoMemory,
        Fault::Refused(cause) => match spot(alloc, before, constructor, path) {
            Ok(spot) => refusal_for(cause, spot),
            Err(_) => KindError::NoMemory,
        },
    }
}

fn judge_headings(alloc: Global, constructors: &[Constructor]) -> Result<(), KindError>
    requires { length constructors.now ≤ 4096 }
    ensures { Finds (of_headings [] (map constructor_view constructors.now)) result }
{
    let mut types = Types::new(alloc);
    for (index, constructor) in constructors.iter().enumerate() {
        if let Err(fault) = judge_heading(alloc, &types, constructor) {
            let before = &constructors[..index];
            let path = [Shown::Result];
            return Err(refusal(alloc, before, constructor, &path, fault));
        }
        types = types.with(alloc, constructor)?;
    }
    Ok(())
}

fn judge_contents(alloc: Global, constructors: &[Constructor]) -> Result<(), KindError>
    requires bounded { length constructors.now ≤ 4096 }
    requires within { AreConstructors (map constructor_view constructors.now) }
    ensures { Finds (of_contents (map constructor_view constructors.now) [] (map constructor_view constructors.now))
        result }
{
    let types = Types::of(alloc, constructors)?;
    for (index, constructor) in constructors.iter().enumerate() {
        let mut path = Items::new(alloc);
        if let Err(fault) = judge_constructor(alloc, &types, constructor, &mut path) {
            let before = &constructors[..index];
            return Err(refusal(alloc, before, constructor, path.as_slice(), fault));
        }
    }
    Ok(())
}

fn judge_guard(alloc: Global, constructors: &[Constructor]) -> Result<(), KindError>
    requires bounded { length constructors.now ≤ 4096 }
    requires within { AreConstructors (map constructor_view constructors.now) }
    ensures { Finds (of_guard (map constructor_view constructors.now)) result }
{
    let Some(unguarded) = first_unguarded(alloc, constructors)? else {
        return Ok(());
    };
    let index = unguarded.constructor;
    if index >= constructors.len() {
        return Ok(());
    }
    let before = &constructors[..index];
    let spot = item_spot(alloc, before, &constructors[index], unguarded.item)?;
    Err(KindError::Unguarded(spot))
}

// Without the declarations of exotic cells.
fn without_exotic(schema: Schema) -> Schema
    ensures { schema_view result ≡ ordinary_of (schema_view schema) }
{
    let mut constructors = schema.constructors;
    let mut at = 0;
    while at < constructors.len() {
        let is_exotic = constructors.as_slice()[at].exotic;
        if is_exotic {
            constructors.remove(at);
        } else {
            at += 1;
        }
    }
    Schema { constructors }
}

// Without the declarations of dictionaries, of which a schema whose headings are in order has at most five.
fn without_dictionaries(schema: Schema) -> Schema
    ensures { schema_view result ≡ without_dictionaries_of (schema_view schema) }
{
    let mut constructors = schema.constructors;
    let mut at = 0;
    while at < constructors.len() {
        let result = &constructors.as_slice()[at].result;
        let is_passed_over = is_dictionary(result.text());
        if is_passed_over {
            constructors.remove(at);
        } else {
            at += 1;
        }
    }
    Schema { constructors }
}

// The refusals of a schema without declarations of dictionaries.
fn judge_kept(alloc: Global, constructors: &[Constructor]) -> Result<(), KindError>
    requires bounded { length constructors.now ≤ 4096 }
    requires within { AreConstructors (map constructor_view constructors.now) }
    ensures { Finds (refusals_within (map constructor_view constructors.now)) result }
{
    judge_contents(alloc, constructors)?;
    judge_guard(alloc, constructors)
}

// The schema without the declarations that are passed over, or its first refusal.
fn judge(alloc: Global, schema: Schema) -> Result<Schema, KindError>
    requires { IsWithinLimits (schema_view schema) }
    ensures { IsJudged (schema_view schema) result }
{
    let ordinary = without_exotic(schema);
    judge_headings(alloc, ordinary.constructors.as_slice())?;
    let kept = without_dictionaries(ordinary);
    judge_kept(alloc, kept.constructors.as_slice())?;
    Ok(kept)
}

/// The schema without its declarations of exotic cells and of dictionaries, or its first refusal. The schema is one
/// within the limits, as a text gives it; a refused schema is let go. Declarations of exotic cells are passed over: no
/// rule is judged of them, they declare no type, and they count for no constructor's number.
#[tactic(auto, using(crate::proofs::Firsts::passed_from, crate::proofs::Firsts::refused_from))]
pub fn kind_check(alloc: Global, schema: Schema) -> Result<Kinded, KindError>
    requires { IsWithinLimits (schema_view schema) }
    // What is answered holds of the schema.
    ensures holds { IsJudged (schema_view schema) result }
    // A schema without a refusal passes, unless out of memory.
    ensures passed { IsKinded (schema_view schema) → IsPassed (schema_view schema) result }
    // The first refusal is answered, unless out of memory.
    ensures refused { (e : Refused) → first_refusal (schema_view schema) ≡ Some e → IsRefused e result }
{
    match judge(alloc, schema) {
        Ok(kept) => Ok(Kinded { schema: kept }),
        Err(error) => Err(error),
    }
}
