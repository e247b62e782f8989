//! The parameters that are exposed by their types.
ghost use Rattle.std.specs.Prelude.{◌≡◌, ℕ, ◌*◌, ◌<◌, ◌∷◌, [], Some, Bool, List, length, All, OnOk, IfOk};
ghost use Rattle.tlb_syntax.specs.View.{constructor as constructor_view, expr};
ghost use Rattle.kind_terms.specs.Params.{bare_name as bare_name_of};
ghost use Rattle.tlb_guard.specs.DeclaredTypes.{Parameter};
ghost use Rattle.tlb_guard.specs.Empty.{may_take_nothing};
ghost use Rattle.tlb_guard.specs.Exposed.{a_variable, exposed_parameters, is_variable_called};
ghost use Rattle.tlb_guard.specs.Facts.{holds};
ghost use Rattle.tlb_guard.specs.Numbering.{parameters_in, place_of, types_in, views, width};
ghost use Rattle.tlb_guard.specs.Variables.{AddsRules, AreExposures, at_place, called, named_by};
ghost use Rattle.tlb_guard.specs.Views.{IsWithin};

use crate::exposures::{ExposedTerm, Exposure};
use crate::least::least;
use crate::rules::Rule;
use crate::types::Types;
use bit_slice::Name;
use kind_terms::bare_name;
use sqlite_items::Items;
use std::alloc::Global;
use tlb_memory::NoMemory;
use tlb_syntax::{Constructor, Expr};

fn is_called(e: &Expr, variable: &Name) -> bool
    ensures { result ≡ is_variable_called (bare_name_of (expr e.now)) (a_variable variable.now) }
{
    match bare_name(e) {
        None => false,
        Some(name) => variable.same(name),
    }
}

// Adds the rule by which the parameter of the type at that place is exposed, if it is a type.
fn add_rule(
    alloc: Global,
    types: &Types<'_>,
    number: usize,
    place: usize,
    through: &[usize],
    rules: &mut Items<Rule>,
) -> Result<(), NoMemory>
    requires { All (λ n. n < length (views types.now) * width (views types.now)) through.now }
    ensures { OnOk result ((x : List ℕ) → place_of (views types.now) x ≡ Some number → AddsRules (views types.now) (at_place x place through.now) rules.old rules.new) }
{
    if types.is_type_parameter(number, place) {
        if let Some(head) = types.parameter(number, place)? {
            let body = Items::from_slice(alloc, through)?;
            rules.push(Rule { head, body })?;
        }
    }
    Ok(())
}

// Adds the rules of the parameters of that variable.
fn add_called(
    alloc: Global,
    types: &Types<'_>,
    constructor: &Constructor,
    variable: &Name,
    through: &[usize],
    rules: &mut Items<Rule>,
) -> Result<(), NoMemory>
    requires { All (λ n. n < length (views types.now) * width (views types.now)) through.now }
    ensures { OnOk result (AddsRules (views types.now) (called (constructor_view constructor.now) variable.now through.now) rules.old rules.new) }
{
    let Some(number) = types.place(&constructor.result) else {
        return Ok(());
    };
    for (place, e) in constructor.params.as_slice().iter().enumerate() {
        if is_called(e, variable) {
            add_rule(alloc, types, number, place, through, rules)?;
        }
    }
    Ok(())
}

fn add_exposure(
    alloc: Global,
    types: &Types<'_>,
    constructor: &Constructor,
    exposure: &Exposure<'_>,
    rules: &mut Items<Rule>,
) -> Result<(), NoMemory>
    requires { IsWithin (views types.now) exposure.now }
    ensures { OnOk result (AddsRules (views types.now) (named_by (views types.now) (constructor_view constructor.now) (exposure.now ∷ [])) rules.old rules.new) }
{
    match exposure.term {
        ExposedTerm::Declared(_) => Ok(()),
        ExposedTerm::Variable(variable) => add_called(
            alloc,
            types,
            constructor,
            variable,
            exposure.through.as_slice(),
            rules,
        ),
    }
}

// Adds the rules by which the constructor exposes the parameters of its type.
fn add_exposures(
    alloc: Global,
    types: &Types<'_>,
    constructor: &Constructor,
    exposures: &[Exposure<'_>],
    rules: &mut Items<Rule>,
) -> Result<(), NoMemory>
    requires { All (IsWithin (views types.now)) exposures.now }
    ensures { OnOk result (AddsRules (views types.now) (named_by (views types.now) (constructor_view constructor.now) exposures.now) rules.old rules.new) }
{
    for exposure in exposures {
        add_exposure(alloc, types, constructor, exposure, rules)?;
    }
    Ok(())
}

/// The parameters that are exposed by their types.
pub fn exposed_parameters(
    alloc: Global,
    types: &Types<'_>,
    exposures: &[Items<Exposure<'_>>],
) -> Result<Items<bool>, NoMemory>
    requires size { length exposures.now ≡ length types.now }
    requires within { All (All (IsWithin (views types.now))) exposures.now }
    ensures { IfOk result (λ found. (empty : List Bool) → AreExposures (views types.now) empty exposures.now → ((x : List ℕ) → types_in (views types.now) (holds empty) x ≡ may_take_nothing (views types.now) x) → (p : Parameter) → parameters_in (views types.now) (holds found) p ≡ exposed_parameters (views types.now) p) }
{
    let count = types.parameter_count()?;
    let mut rules: Items<Rule> = Items::new(alloc);
    for (number, constructor) in types.constructors().iter().enumerate() {
        add_exposures(
            alloc,
            types,
            constructor,
            exposures[number].as_slice(),
            &mut rules,
        )?;
    }
    least(alloc, count, rules.as_slice())
}
