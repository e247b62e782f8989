//! The walk: a value beside the references that it takes, by its type, from the ways of chosen paths alone into cells.
//!
//! `levels` is how many levels of values are left.
ghost use Rattle.std.specs.Prelude.{◌≡◌, ◌+◌, ◌<◌, ◌≤◌, ◌∷◌, ◌++◌, ℕ, Bool, [], List, None, Option, IfOk, length, map, option_map, true};
ghost use Rattle.cell_nodes.specs.declared.tree.Hidden.{Hidden as HiddenPart};
ghost use Rattle.cell_nodes.specs.declared.tree.Tree.{Tree};
ghost use Rattle.closed_type.specs.View.{closed_args, closed_type as type_view};
ghost use Rattle.closed_type.specs.declared.tree.ClosedType.{ClosedType as TheClosedType};
ghost use Rattle.core_form.specs.Closed as closed;
ghost use Rattle.core_form.specs.Scope.{Scope, bind as bound};
ghost use Rattle.core_form.specs.Core.{sets};
ghost use Rattle.flat_form.specs.Sound.{IsFlat, OpIsSound, OpsAreSound};
ghost use Rattle.flat_form.specs.Stands.{items_in, record_at, slot_of, type_at};
ghost use Rattle.flat_form.specs.declared.lists.PlanOp.{PlanOp as Operation};
ghost use Rattle.hashmap_tree.specs.Entries.{Slice};
ghost use Rattle.plan_closing.specs.Counted.{scope_of};
ghost use Rattle.plan_reading.specs.Shaped.{GovernIsSound, IsRecord, governed};
ghost use Rattle.pruning.specs.Cut.{cell_with};
ghost use Rattle.pruning.specs.Laid.{Laid, LaidEdge};
ghost use Rattle.pruning.specs.SpellsLaid.{SpellsEdge, SpellsLaid, SpellsLaidShape};
ghost use Rattle.schema_leads.specs.Tags.{cores};
ghost use Rattle.spelling.specs.Goals as goals;
ghost use Rattle.spelling.specs.Spells.{SpellsNumber};
ghost use Rattle.tlb_syntax.specs.View.{schema as schema_view};
ghost use Rattle.typed_value.specs.Values as forms;
ghost use Rattle.typed_value.specs.View.{pair_of, pairs_of, value as value_view, record_parts, names_in, vals_in, vals_of};
ghost use Rattle.pruned_proof.specs.View.{rests_of};
ghost use Rattle.pruned_proof.specs.Walks.{Due, DueItems, Fills, Gives, HasBit, Is, IsBranch, IsEdge, Lies, Moves, mapped_here, outputs_of};
ghost use Rattle.pruned_proof.specs.Wanted.{below, cut_at, cut_edge_for, cut_for};

use crate::cutting::{CutError, Cutting, Outputs};
use crate::holding::{
    count_of, fields_of, held, is_raw, mapped_here, mapped_under, most_own, named_as, referred,
    repeated,
};
use crate::wanted::{Reached, Wanted};
use bit_slice::{BitString, Name};
use cell_nodes::Cell;
use closed_type::{ClosedArg, ClosedType};
use field_plan::Plan;
use flat_form::{Flat, PlanOp};
use nat_solver::Env;
use plan_reading::{FlatShape, ShapeError, bind, fit, set, shape, sought, values};
use std::alloc::Global;
use typed_value::{Record, Value};

/// A value of a closed type.
#[cycle(cut)]
fn cut_value(
    alloc: Global,
    plan: &Plan,
    levels: u32,
    ty: &ClosedType,
    value: &Value,
    wanted: &Wanted<'_>,
    cell: &mut Cutting<'_>,
) -> Result<Outputs, CutError>
    ensures { (d : Laid) (outs : List ℕ) (after : Slice) → Is d (value_view value.now) levels
        → Lies (SpellsLaid (cores (schema_view plan.now.0)) d (goals.at_type (type_view ty.now))) cell.old.left outs after
        → Gives (λ x. (outputs_of x ≡ outs) × Moves (cut_for (rests_of wanted.now) d) after.refs cell.old cell.new) result }
{
    if levels == 0 {
        return Err(CutError::Unread);
    }
    let levels = levels - 1;
    match value {
        Value::Number(number) => own_output(ty, number.size),
        Value::Bits(_) => Ok(Outputs::Empty),
        Value::Rest(_) => {
            cell.keep_all()?;
            Ok(Outputs::Empty)
        }
        Value::Ref(inner) => cut_held(alloc, plan, levels, ty, inner.get(), wanted, cell),
        Value::List(items) => {
            let items = items.as_slice();
            cut_list(alloc, plan, levels, ty, items, wanted, cell)
        }
        Value::Map(dict) => {
            let pairs = dict.pairs.as_slice();
            cut_map(alloc, plan, levels, ty, pairs, wanted, cell)
        }
        Value::Record(record) => cut_record(alloc, plan, levels, ty, record, wanted, cell),
        Value::Absent | Value::Unknown(_) | Value::Raw(_) => Err(CutError::Unread),
    }
}

/// A reference to this value.
#[cycle(cut)]
fn cut_held(
    alloc: Global,
    plan: &Plan,
    levels: u32,
    ty: &ClosedType,
    held: &Value,
    wanted: &Wanted<'_>,
    cell: &mut Cutting<'_>,
) -> Result<Outputs, CutError>
    ensures { (d : Laid) (outs : List ℕ) (after : Slice) → Is d (forms.ref_to tt (value_view held.now)) (levels + 1)
        → Lies (SpellsLaid (cores (schema_view plan.now.0)) d (goals.at_type (type_view ty.now))) cell.old.left outs after
        → Gives (λ x. (outputs_of x ≡ outs) × Moves (cut_for (rests_of wanted.now) d) after.refs cell.old cell.new) result }
{
    let Some(inner) = referred(ty) else {
        return Err(CutError::Unread);
    };
    cut_ref(alloc, plan, levels, inner, held, wanted, cell)?;
    Ok(Outputs::Empty)
}

/// A repetition of these values.
#[cycle(cut)]
fn cut_list(
    alloc: Global,
    plan: &Plan,
    levels: u32,
    ty: &ClosedType,
    items: &[Value],
    wanted: &Wanted<'_>,
    cell: &mut Cutting<'_>,
) -> Result<Outputs, CutError>
    ensures { (d : Laid) (outs : List ℕ) (after : Slice)
        → Is d (forms.list_of (vals_of (map value_view items.now))) (levels + 1)
        → Lies (SpellsLaid (cores (schema_view plan.now.0)) d (goals.at_type (type_view ty.now))) cell.old.left outs after
        → Gives (λ x. (outputs_of x ≡ outs) × Moves (cut_for (rests_of wanted.now) d) after.refs cell.old cell.new) result }
{
    let Some((count, inner)) = repeated(ty) else {
        return Err(CutError::Unread);
    };
    let _count = count_of(count);
    cut_items(alloc, plan, levels, inner, items, wanted, cell)?;
    Ok(Outputs::Empty)
}

/// A dictionary of these values.
#[cycle(cut)]
fn cut_map(
    alloc: Global,
    plan: &Plan,
    levels: u32,
    ty: &ClosedType,
    pairs: &[(BitString, Value)],
    wanted: &Wanted<'_>,
    cell: &mut Cutting<'_>,
) -> Result<Outputs, CutError>
    ensures { (d : Laid) (hidden : List (List ℕ × HiddenPart)) (outs : List ℕ) (after : Slice)
        → Is d (forms.map_of tt (pairs_of (map pair_of pairs.now)) hidden) (levels + 1)
        → Lies (SpellsLaid (cores (schema_view plan.now.0)) d (goals.at_type (type_view ty.now))) cell.old.left outs after
        → Gives (λ x. (outputs_of x ≡ outs) × Moves (cut_for (rests_of wanted.now) d) after.refs cell.old cell.new) result }
{
    let Some((_, inner)) = mapped_here(ty) else {
        return cut_map_under(alloc, plan, levels, ty, pairs, wanted, cell);
    };
    cut_edge(alloc, plan, levels, 1023, inner, pairs, wanted, cell)?;
    Ok(Outputs::Empty)
}

/// The same where the first edge has no place in the cell.
#[cycle(cut)]
fn cut_map_under(
    alloc: Global,
    plan: &Plan,
    levels: u32,
    ty: &ClosedType,
    pairs: &[(BitString, Value)],
    wanted: &Wanted<'_>,
    cell: &mut Cutting<'_>,
) -> Result<Outputs, CutError>
    ensures { (d : Laid) (hidden : List (List ℕ × HiddenPart)) (outs : List ℕ) (after : Slice)
        → Is d (forms.map_of tt (pairs_of (map pair_of pairs.now)) hidden) (levels + 1)
        → mapped_here (type_view ty.now) ≡ None
        → Lies (SpellsLaid (cores (schema_view plan.now.0)) d (goals.at_type (type_view ty.now))) cell.old.left outs after
        → Gives (λ x. (outputs_of x ≡ outs) × Moves (cut_for (rests_of wanted.now) d) after.refs cell.old cell.new) result }
{
    let Some((_, inner)) = mapped_under(ty) else {
        return Err(CutError::Unread);
    };
    cut_root_edge(alloc, plan, levels, inner, pairs, wanted, cell)?;
    Ok(Outputs::Empty)
}

/// A record of a declared type.
#[cycle(cut)]
fn cut_record(
    alloc: Global,
    plan: &Plan,
    levels: u32,
    ty: &ClosedType,
    parts: &Record,
    wanted: &Wanted<'_>,
    cell: &mut Cutting<'_>,
) -> Result<Outputs, CutError>
    ensures { (d : Laid) (outs : List ℕ) (after : Slice)
        → Is d (forms.record_of (record_parts parts.now).0 (names_in (record_parts parts.now).1)
        (vals_in (record_parts parts.now).1)) (levels + 1)
        → Lies (SpellsLaid (cores (schema_view plan.now.0)) d (goals.at_type (type_view ty.now))) cell.old.left outs after
        → Gives (λ x. (outputs_of x ≡ outs) × Moves (cut_for (rests_of wanted.now) d) after.refs cell.old cell.new) result }
{
    let Some((name, args)) = named_as(ty) else {
        return Err(CutError::Unread);
    };
    cut_declared(alloc, plan, levels, name, args, parts, wanted, cell)
}

// The output of a number, which is the number itself at the types of naturals.
#[tactic(auto, using(crate::proofs::Numbers::own_small, crate::proofs::Numbers::own_is, crate::proofs::Numbers::own_none))]
fn own_output(ty: &ClosedType, size: u128) -> Result<Outputs, CutError>
    ensures { (negative : Bool) (outs : List ℕ) (before after : Slice) → goals.in_table (type_view ty.now) ≡ true
        → SpellsNumber negative size (goals.row (type_view ty.now)) before outs after
        → Gives (λ x. outputs_of x ≡ outs) result }
{
    match most_own(ty) {
        None => Ok(Outputs::Empty),
        Some(most) => {
            if size > u128::from(most) {
                return Err(CutError::Unread);
            }
            Ok(Outputs::One(size as u32))
        }
    }
}

/// A reference to a cell that holds just the value.
#[cycle(cut)]
fn cut_ref(
    alloc: Global,
    plan: &Plan,
    levels: u32,
    inner: &ClosedType,
    held: &Value,
    wanted: &Wanted<'_>,
    cell: &mut Cutting<'_>,
) -> Result<(), CutError>
    ensures { (d : Laid) (outs : List ℕ) (after : Slice) → Is d (forms.ref_to tt (value_view held.now)) (levels + 1)
        → Lies (SpellsLaidShape (cores (schema_view plan.now.0)) d (goals.typed (closed.ref (type_view inner.now)))) cell.old.left outs after
        → Gives (λ x. Moves (cut_for (rests_of wanted.now) d) after.refs cell.old cell.new) result }
{
    let child = cell.next()?;
    if wanted.is_nothing() {
        return cell.hide(alloc, child);
    }
    if wanted.is_whole() {
        return cell.keep(child);
    }
    if is_raw(held) {
        return cell.keep(child);
    }
    let made = cut_cell(alloc, plan, levels, inner, held, wanted, child)?;
    cell.put(made)
}

/// The cell of a value, with what its references are left with.
#[cycle(cut)]
pub(crate) fn cut_cell(
    alloc: Global,
    plan: &Plan,
    levels: u32,
    ty: &ClosedType,
    value: &Value,
    wanted: &Wanted<'_>,
    from: &Cell,
) -> Result<Cell, CutError>
    ensures { (d : Laid) → Is d (value_view value.now) levels
        → Fills (cores (schema_view plan.now.0)) (goals.under_ref (type_view ty.now)) d from.now
        → Gives (λ c. c ≡ cell_with from.now (cut_for (rests_of wanted.now) d)) result }
{
    let mut inner = Cutting::of(alloc, from);
    cut_value(alloc, plan, levels, ty, value, wanted, &mut inner)?;
    inner.finish(alloc, from)
}

/// Values one after the other.
#[cycle(cut)]
fn cut_items(
    alloc: Global,
    plan: &Plan,
    levels: u32,
    inner: &ClosedType,
    items: &[Value],
    wanted: &Wanted<'_>,
    cell: &mut Cutting<'_>,
) -> Result<(), CutError>
    ensures { (after : Slice) (all : List Tree)
        → DueItems (cores (schema_view plan.now.0)) (rests_of wanted.now) levels (type_view inner.now) after all 0
        (map value_view items.now) cell.old
        → Gives (λ x. (cell.new.left ≡ after.refs) × (cell.new.made.items ≡ all)) result }
{
    let mut place = 0u32;
    for item in items {
        let here = wanted.onward(alloc, Reached::Item(place))?;
        cut_value(alloc, plan, levels, inner, item, &here, cell)?;
        place = place.saturating_add(1);
    }
    Ok(())
}

/// A dictionary whose first edge has a cell of its own, or an empty one.
#[cycle(cut)]
fn cut_root_edge(
    alloc: Global,
    plan: &Plan,
    levels: u32,
    inner: &ClosedType,
    pairs: &[(BitString, Value)],
    wanted: &Wanted<'_>,
    cell: &mut Cutting<'_>,
) -> Result<(), CutError>
    ensures { (d : Laid) (n : ℕ) (outs : List ℕ) (after : Slice) → n ≤ 1023
        → Is d (forms.map_of tt (pairs_of (map pair_of pairs.now)) []) (levels + 1)
        → Lies (SpellsLaidShape (cores (schema_view plan.now.0)) d (goals.typed (closed.dict_e n (type_view inner.now)))) cell.old.left outs after
        → Gives (λ x. Moves (cut_for (rests_of wanted.now) d) after.refs cell.old cell.new) result }
{
    let Some((key, _)) = pairs.first() else {
        return Ok(());
    };
    cut_branch(
        alloc, plan, levels, 1023, inner, pairs, key, 0, wanted, cell,
    )
}

/// The cell of an edge. The keys below it begin with the first `end` bits of this key; `left` more bits can follow.
#[cycle(cut)]
fn cut_branch(
    alloc: Global,
    plan: &Plan,
    levels: u32,
    left: u32,
    inner: &ClosedType,
    pairs: &[(BitString, Value)],
    key: &BitString,
    end: u32,
    wanted: &Wanted<'_>,
    cell: &mut Cutting<'_>,
) -> Result<(), CutError>
    ensures { (q : List ℕ) (e : LaidEdge) (n : ℕ) (c : Tree) (after : List Tree) → n ≤ left → end ≡ length q
        → IsEdge q e (pairs_of (map pair_of pairs.now)) levels
        → IsBranch (cores (schema_view plan.now.0)) n (type_view inner.now) q e key.now c cell.old.left after
        → Gives (λ x. Moves (cut_at (below q (rests_of wanted.now)) c
        (cut_edge_for (below q (rests_of wanted.now)) q e) ∷ []) after cell.old cell.new) result }
{
    let child = cell.next()?;
    let Some((prefix, _)) = key.slice().take(end) else {
        return Err(CutError::Unread);
    };
    let wanted = wanted.below(alloc, &prefix)?;
    if wanted.is_nothing() {
        return cell.hide(alloc, child);
    }
    if wanted.is_whole() {
        return cell.keep(child);
    }
    let mut edge = Cutting::of(alloc, child);
    cut_edge(alloc, plan, levels, left, inner, pairs, &wanted, &mut edge)?;
    cell.put(edge.finish(alloc, child)?)
}

/// An edge after its label: a leaf, or a fork. Its keys have at most `left` bits that no edge around it has.
#[cycle(cut)]
fn cut_edge(
    alloc: Global,
    plan: &Plan,
    levels: u32,
    left: u32,
    inner: &ClosedType,
    pairs: &[(BitString, Value)],
    wanted: &Wanted<'_>,
    cell: &mut Cutting<'_>,
) -> Result<(), CutError>
    ensures { (q : List ℕ) (e : LaidEdge) (n : ℕ) (outs : List ℕ) (after : Slice) → n ≤ left
        → IsEdge q e (pairs_of (map pair_of pairs.now)) levels
        → Lies (λ b o a. SpellsEdge (cores (schema_view plan.now.0)) e n (type_view inner.now) b a) cell.old.left outs after
        → Gives (λ x. Moves (cut_edge_for (rests_of wanted.now) q e) after.refs cell.old cell.new) result }
{
    let Some(((first, value), others)) = pairs.split_first() else {
        return Err(CutError::Unread);
    };
    let Some((last, _)) = others.last() else {
        let wanted = wanted.onward(alloc, Reached::Key(first))?;
        cut_value(alloc, plan, levels, inner, value, &wanted, cell)?;
        return Ok(());
    };
    if left == 0 {
        return Err(CutError::Unread);
    }
    let common = common(first, last);
    let (zeros, ones) = pairs.split_at(turn(pairs, common));
    let end = common + 1;
    cut_branch(
        alloc,
        plan,
        levels,
        left - 1,
        inner,
        zeros,
        first,
        end,
        wanted,
        cell,
    )?;
    cut_branch(
        alloc,
        plan,
        levels,
        left - 1,
        inner,
        ones,
        last,
        end,
        wanted,
        cell,
    )
}

// How many of the first bits of both are the same.
fn common(a: &BitString, b: &BitString) -> u32
    ensures is { (p x y : List ℕ) → a.now ≡ p ++ 0 ∷ x → b.now ≡ p ++ 1 ∷ y → result ≡ length p }
    ensures bound { result ≤ 1023 }
{
    let (a, b) = (a.slice(), b.slice());
    let most = a.len().min(b.len());
    for i in 0..most {
        if a.known_bit(i) != b.known_bit(i) {
            return i;
        }
    }
    most
}

// How many keys have no 1 at that place: those before the first that has.
fn turn(pairs: &[(BitString, Value)], place: u32) -> usize
    ensures turns { (k : ℕ) → k ≤ length pairs.now
        → ((i : ℕ) → i < k → HasBit place 0 i (map (λ p. p.0) pairs.now))
        → ((i : ℕ) → k ≤ i → i < length pairs.now → HasBit place 1 i (map (λ p. p.0) pairs.now)) → result ≡ k }
    ensures within { result ≤ length pairs.now }
{
    let mut low = 0usize;
    let mut high = pairs.len();
    'halves: while low < high {
        let middle = low + (high - low) / 2;
        if pairs[middle].0.slice().bit(place) == Some(true) {
            high = middle;
        } else {
            low = middle + 1;
        }
    }
    low
}

/// A record of a declared type, by the constructor that is shown by its name.
#[cycle(cut)]
fn cut_declared(
    alloc: Global,
    plan: &Plan,
    levels: u32,
    name: &Name,
    args: &[ClosedArg],
    parts: &Record,
    wanted: &Wanted<'_>,
    cell: &mut Cutting<'_>,
) -> Result<Outputs, CutError>
    ensures { (d : Laid) (outs : List ℕ) (after : Slice)
        → Is d (forms.record_of (record_parts parts.now).0 (names_in (record_parts parts.now).1)
        (vals_in (record_parts parts.now).1)) (levels + 1)
        → Lies (SpellsLaidShape (cores (schema_view plan.now.0)) d (goals.typed (closed.named name.now (closed_args args.now)))) cell.old.left outs after
        → Gives (λ x. (outputs_of x ≡ outs) × Moves (cut_for (rests_of wanted.now) d) after.refs cell.old cell.new) result }
{
    let Some(shown) = &parts.name else {
        return Err(CutError::Unread);
    };
    let Some(c) = plan.named(name, args, shown) else {
        return Err(CutError::Unread);
    };
    let flat = plan.flat();
    let entry = plan.entry(c);
    let Some(mut slots) = fit(alloc, plan.inputs(c), args, entry.slots)? else {
        return Err(CutError::Unread);
    };
    let ops = flat.operations(entry.first, entry.count);
    let types = slots.types.as_slice();
    let fields = parts.fields.as_slice();
    cut_fields(
        alloc,
        plan,
        levels,
        ops,
        &mut slots.numbers,
        types,
        fields,
        wanted,
        cell,
    )?;
    match values(alloc, flat, plan.outputs(c), &slots.numbers)? {
        None => Err(CutError::Unread),
        Some(outputs) => Ok(Outputs::Several(outputs)),
    }
}

/// The fields of a record, of which the operations are these. The slots that they bind are set.
#[cycle(cut)]
fn cut_fields(
    alloc: Global,
    plan: &Plan,
    levels: u32,
    ops: &[PlanOp],
    env: &mut Env,
    types: &[Option<ClosedType>],
    fields: &[(Name, Value)],
    wanted: &Wanted<'_>,
    cell: &mut Cutting<'_>,
) -> Result<(), CutError>
    requires { OpsAreSound plan.now.1 (length plan.now.1.types) ops.now }
    ensures { (end : Scope) (after : Slice) (all : List Tree)
        → Due (cores (schema_view plan.now.0)) (rests_of wanted.now) levels end after all
        (items_in plan.now.1 (type_at plan.now.1) None ops.now) (scope_of env.old types.now) (map pair_of fields.now) cell.old
        → Gives (λ x. (scope_of env.new types.now ≡ end) × (cell.new.left ≡ after.refs) × (cell.new.made.items ≡ all)) result }
{
    let mut condition = None;
    let mut due = fields;
    for op in ops {
        let (next, rest) = cut_op(
            alloc, plan, levels, *op, condition, env, types, due, wanted, cell,
        )?;
        condition = next;
        due = rest;
    }
    Ok(())
}

/// One operation of a record, under the condition that the operation before it sets, if it sets one: the condition of
/// the next operation, and the fields that are due.
#[cycle(cut)]
fn cut_op<'a>(
    alloc: Global,
    plan: &Plan,
    levels: u32,
    op: PlanOp,
    condition: Option<(u32, u32)>,
    env: &mut Env,
    types: &[Option<ClosedType>],
    fields: &'a [(Name, Value)],
    wanted: &Wanted<'_>,
    cell: &mut Cutting<'_>,
) -> Result<(Option<(u32, u32)>, &'a [(Name, Value)]), CutError>
    requires sound { OpIsSound plan.now.1 (length plan.now.1.types) op }
    requires condition { GovernIsSound plan.now.1 condition }
    ensures gives { (ops : List Operation) (end : Scope) (after : Slice) (all : List Tree)
        → Due (cores (schema_view plan.now.0)) (rests_of wanted.now) levels end after all
        (items_in plan.now.1 (type_at plan.now.1) (governed plan.now.1 condition) (op ∷ ops)) (scope_of env.old types.now) (map pair_of fields.entry.now) cell.old
        → Gives (λ x. Due (cores (schema_view plan.now.0)) (rests_of wanted.now) levels end after all
        (items_in plan.now.1 (type_at plan.now.1) (governed plan.now.1 x.0) ops) (scope_of env.new types.now) (map pair_of x.1.now) cell.new) result }
    ensures condition { IfOk result (λ x. GovernIsSound plan.now.1 x.0) }
{
    let flat = plan.flat();
    match op {
        PlanOp::Check(_, _, _, _) => Ok((None, fields)),
        PlanOp::Solve(slot, left, right, _) => match sought(flat, slot, left, right, env) {
            Ok(number) => {
                set(env, slot, number);
                Ok((None, fields))
            }
            Err(_) => Err(CutError::Unread),
        },
        PlanOp::When(number, bit) => Ok((Some((number, bit)), fields)),
        PlanOp::Field(_, ty, slot) => {
            let Some(((name, value), due)) = fields.split_first() else {
                return Err(CutError::Unread);
            };
            let here = wanted.onward(alloc, Reached::Field(name))?;
            let outputs = cut_field(
                alloc, plan, levels, condition, ty, env, types, value, &here, cell,
            )?;
            bind_outputs(flat, ty, slot, &outputs, env);
            Ok((None, due))
        }
    }
}

// Sets the slots of a field to its outputs.
fn bind_outputs(flat: &Flat, ty: u32, slot: u32, outputs: &Outputs, env: &mut Env)
    requires flat { IsFlat flat.now }
    requires there { ty < length flat.now.types }
    ensures { (types : List (Option TheClosedType)) → bound (sets (slot_of slot) (type_at flat.now ty)) (outputs_of outputs.now)
        (scope_of env.old types) ≡ scope_of env.new types }
{
    match outputs {
        Outputs::Empty => bind(flat, ty, slot, &[], env),
        Outputs::One(number) => bind(flat, ty, slot, &[*number], env),
        Outputs::Several(numbers) => bind(flat, ty, slot, numbers.as_slice(), env),
    }
}

/// The value of a field of this type, under a condition or none.
#[cycle(cut)]
fn cut_field(
    alloc: Global,
    plan: &Plan,
    levels: u32,
    condition: Option<(u32, u32)>,
    ty: u32,
    env: &Env,
    types: &[Option<ClosedType>],
    value: &Value,
    wanted: &Wanted<'_>,
    cell: &mut Cutting<'_>,
) -> Result<Outputs, CutError>
    requires there { ty < length plan.now.1.types }
    requires condition { GovernIsSound plan.now.1 condition }
    ensures { (d : Laid) (outs : List ℕ) (after : Slice) → Is d (value_view value.now) levels
        → Lies (SpellsLaid (cores (schema_view plan.now.0)) d (goals.at_field (governed plan.now.1 condition) (type_at plan.now.1 ty)
        (scope_of env.now types.now))) cell.old.left outs after
        → Gives (λ x. (outputs_of x ≡ outs) × Moves (cut_for (rests_of wanted.now) d) after.refs cell.old cell.new) result }
{
    match shape(alloc, plan.flat(), condition, ty, env, types) {
        Err(ShapeError::NoMemory) => Err(CutError::NoMemory),
        Err(ShapeError::Refused(_)) => Err(CutError::Unread),
        Ok(FlatShape::LeftOut) => Ok(Outputs::Empty),
        Ok(FlatShape::Typed(closed)) => {
            cut_value(alloc, plan, levels, &closed, value, wanted, cell)
        }
        Ok(FlatShape::Here(first, count)) => {
            cut_inner(
                alloc, plan, levels, first, count, env, types, value, wanted, cell,
            )?;
            Ok(Outputs::Empty)
        }
        Ok(FlatShape::Under(first, count)) => {
            cut_under(
                alloc, plan, levels, first, count, env, types, value, wanted, cell,
            )?;
            Ok(Outputs::Empty)
        }
    }
}

/// A record in a record.
#[cycle(cut)]
fn cut_inner(
    alloc: Global,
    plan: &Plan,
    levels: u32,
    first: u32,
    count: u32,
    env: &Env,
    types: &[Option<ClosedType>],
    value: &Value,
    wanted: &Wanted<'_>,
    cell: &mut Cutting<'_>,
) -> Result<(), CutError>
    requires { IsRecord plan.now.1 (length plan.now.1.types) first count }
    ensures { (d : Laid) (outs : List ℕ) (after : Slice) → Is d (value_view value.now) levels
        → Lies (SpellsLaidShape (cores (schema_view plan.now.0)) d (goals.fields_here (record_at plan.now.1 first count)
        (scope_of env.now types.now))) cell.old.left outs after
        → Gives (λ x. Moves (cut_for (rests_of wanted.now) d) after.refs cell.old cell.new) result }
{
    if levels == 0 {
        return Err(CutError::Unread);
    }
    let Some(fields) = fields_of(value) else {
        return Err(CutError::Unread);
    };
    let ops = plan.flat().operations(first, count);
    let mut inner = env.copy(alloc)?;
    cut_fields(
        alloc,
        plan,
        levels - 1,
        ops,
        &mut inner,
        types,
        fields,
        wanted,
        cell,
    )
}

/// A record in a record under `^`.
#[cycle(cut)]
fn cut_under(
    alloc: Global,
    plan: &Plan,
    levels: u32,
    first: u32,
    count: u32,
    env: &Env,
    types: &[Option<ClosedType>],
    value: &Value,
    wanted: &Wanted<'_>,
    cell: &mut Cutting<'_>,
) -> Result<(), CutError>
    requires { IsRecord plan.now.1 (length plan.now.1.types) first count }
    ensures { (d : Laid) (outs : List ℕ) (after : Slice) → Is d (value_view value.now) levels
        → Lies (SpellsLaidShape (cores (schema_view plan.now.0)) d (goals.fields_under (record_at plan.now.1 first count)
        (scope_of env.now types.now))) cell.old.left outs after
        → Gives (λ x. Moves (cut_for (rests_of wanted.now) d) after.refs cell.old cell.new) result }
{
    let child = cell.next()?;
    if wanted.is_nothing() {
        return cell.hide(alloc, child);
    }
    if wanted.is_whole() {
        return cell.keep(child);
    }
    let Some(held) = held(value) else {
        return Err(CutError::Unread);
    };
    let mut content = Cutting::of(alloc, child);
    cut_inner(
        alloc,
        plan,
        levels,
        first,
        count,
        env,
        types,
        held,
        wanted,
        &mut content,
    )?;
    cell.put(content.finish(alloc, child)?)
}
