//! Constructors.
ghost use Rattle.std.specs.Prelude.{◌≡◌, [], IfOk, OnOk, map};
ghost use Rattle.tlb_syntax.specs.View.{constructor as constructor_view};
ghost use Rattle.flat_form.specs.Sound.{IsFlat};
ghost use Rattle.flat_form.specs.Growth.{Adds};
ghost use Rattle.plan_compile.specs.Compiled.{ArePlansOf, IsCompiled, IsPlanOf};

use crate::items::compile_items;
use crate::results::{inputs, outputs};
use flat_form::{ConstructorPlan, Entry, Flat};
use kind_terms::Types;
use sqlite_items::Items;
use std::alloc::Global;
use tlb_memory::NoMemory;
use tlb_syntax::Constructor;

/// The lists of a schema, and what each constructor has beside them, in the schema's order.
#[derive(Drop)]
pub struct CompiledSchema {
    pub flat: Flat,
    pub constructors: Items<ConstructorPlan>,
}

// A length as a number of the lists. Memory ends before lists are longer.
fn number_of(length: usize) -> Result<u32, NoMemory>
    ensures { IfOk result (λ n. n ≡ length) }
{
    if length < u32::MAX as usize {
        Ok(length as u32)
    } else {
        Err(NoMemory)
    }
}

fn compile_constructor(
    alloc: Global,
    types: &Types<'_>,
    constructor: &Constructor,
    flat: &mut Flat,
) -> Result<ConstructorPlan, NoMemory>
    requires { IsFlat flat.old }
    ensures adds { OnOk result (Adds flat.old flat.new) }
    ensures stands { IfOk result (λ plan. IsPlanOf flat.new (map constructor_view types.now)
        (constructor_view constructor.now) plan) }
{
    let mut names = Items::new(alloc);
    let mut slots = 0u32;
    let ops = compile_items(
        alloc,
        flat,
        types,
        &mut names,
        &mut slots,
        constructor.items.as_slice(),
    )?;
    let count = number_of(ops.len())?;
    let first = flat.add_operations(ops)?;
    let inputs = inputs(alloc, names.as_slice(), constructor.params.as_slice())?;
    let outputs = outputs(alloc, flat, names.as_slice(), constructor.params.as_slice())?;
    Ok(ConstructorPlan {
        entry: Entry {
            first,
            count,
            slots,
        },
        inputs,
        outputs,
    })
}

fn compile_all(
    alloc: Global,
    types: &Types<'_>,
    constructors: &[Constructor],
    flat: &mut Flat,
) -> Result<Items<ConstructorPlan>, NoMemory>
    requires { IsFlat flat.old }
    ensures flat { OnOk result (IsFlat flat.new) }
    ensures stand { IfOk result (λ plans. ArePlansOf flat.new (map constructor_view types.now)
        (map constructor_view constructors.now) plans) }
{
    let mut plans = Items::new(alloc);
    for constructor in constructors {
        let plan = compile_constructor(alloc, types, constructor, flat)?;
        plans.push(plan)?;
    }
    Ok(plans)
}

/// The flat form of a schema, without the declarations that are passed over.
pub fn compile_constructors(
    alloc: Global,
    constructors: &[Constructor],
) -> Result<CompiledSchema, NoMemory>
    ensures { IfOk result (λ compiled. IsCompiled (map constructor_view constructors.now) compiled) }
{
    let types = Types::of(alloc, constructors)?;
    let mut flat = Flat::new(alloc);
    let constructors = compile_all(alloc, &types, constructors, &mut flat)?;
    Ok(CompiledSchema { flat, constructors })
}
