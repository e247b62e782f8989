//! The least set of facts under rules, by a work list.
ghost use Rattle.std.specs.Prelude.{◌≡◌, ℕ, ◌+◌, ◌<◌, ◌≤◌, length, not, All, OnOk, IfOk, true, false, count_by, slice_set, slice_index, slice_index_or, [], List, IsTrue, ◌↔◌};
ghost use Rattle.std.specs.List.{list_all};
ghost use Rattle.tlb_guard.specs.declared.rules.Rule.{Rule as RuleView};
ghost use Rattle.tlb_guard.specs.Facts.{holds, IsClosed, IsSound, IsBelow, IsSearch, Extends, IsServed, AreUsers, Obeys};

use sqlite_items::Items;
use std::alloc::{AllocError, Global};
use tlb_memory::NoMemory;

/// The head holds where all of the body holds.
#[derive(Drop)]
pub struct Rule {
    pub head: usize,
    pub body: Items<usize>,
}

/// Whether the fact is found.
pub(crate) fn is_found(found: &[bool], fact: usize) -> bool
    ensures { result ≡ holds found.now fact }
{
    fact < found.len() && found[fact]
}

/// A search for the facts that hold.
#[derive(Drop)]
pub(crate) struct State {
    pub found: Items<bool>,
    /// The facts that are found, in the order in which they were.
    pub queue: Items<usize>,
}

fn add(state: &mut State, fact: usize) -> Result<(), NoMemory>
    requires search { IsSearch state.old }
    requires below { fact < length state.old.found }
    ensures search { OnOk result (IsSearch state.new) }
    ensures extends { OnOk result (Extends state.old state.new) }
    ensures found { OnOk result (state.new.found ≡ slice_set state.old.found fact true) }
{
    if !state.found.as_slice()[fact] {
        state.queue.push(fact)?;
        state.found.set(fact, true);
    }
    Ok(())
}

// Whether all facts of the body are found.
fn is_met(found: &[bool], body: &[usize]) -> bool
    requires { All (λ b. b < length found.now) body.now }
    ensures { result ≡ list_all (holds found.now) body.now }
{
    for fact in body {
        if !found[*fact] {
            return false;
        }
    }
    true
}

// Adds the rule's head where its body holds.
fn apply(rule: &Rule, state: &mut State) -> Result<(), NoMemory>
    requires search { IsSearch state.old }
    requires below { IsBelow (length state.old.found) rule.now }
    ensures search { OnOk result (IsSearch state.new) }
    ensures extends { OnOk result (Extends state.old state.new) }
    ensures served { OnOk result ((n : ℕ) → n ≤ length state.old.queue → IsServed state.new n rule.now) }
    ensures sound { OnOk result ((rules : List RuleView) (seeds : List ℕ) (k : ℕ) → k < length rules → slice_index_or rules k rule.now ≡ rule.now → IsSound rules seeds (holds state.old.found) → IsSound rules seeds (holds state.new.found)) }
{
    if is_met(state.found.as_slice(), rule.body.as_slice()) {
        add(state, rule.head)?;
    }
    Ok(())
}

pub(crate) fn add_all(state: &mut State, facts: &[usize]) -> Result<(), NoMemory>
    requires search { IsSearch state.old }
    requires below { All (λ x. x < length state.old.found) facts.now }
    ensures search { OnOk result (IsSearch state.new) }
    ensures extends { OnOk result (Extends state.old state.new) }
    ensures seeded { OnOk result (All (λ x. holds state.new.found x ≡ true) facts.now) }
    ensures sound { OnOk result ((rules : List RuleView) → IsSound rules facts.now (holds state.old.found) → IsSound rules facts.now (holds state.new.found)) }
{
    for fact in facts {
        add(state, *fact)?;
    }
    Ok(())
}

pub(crate) fn apply_all(rules: &[Rule], state: &mut State) -> Result<(), NoMemory>
    requires search { IsSearch state.old }
    requires below { All (IsBelow (length state.old.found)) rules.now }
    ensures search { OnOk result (IsSearch state.new) }
    ensures extends { OnOk result (Extends state.old state.new) }
    ensures served { OnOk result ((k : ℕ) (d : RuleView) → k < length rules.now → IsServed state.new 0 (slice_index_or rules.now k d)) }
    ensures sound { OnOk result ((seeds : List ℕ) → IsSound rules.now seeds (holds state.old.found) → IsSound rules.now seeds (holds state.new.found)) }
{
    for rule in rules {
        apply(rule, state)?;
    }
    Ok(())
}

fn apply_users(rules: &[Rule], users: &[usize], state: &mut State) -> Result<(), NoMemory>
    requires search { IsSearch state.old }
    requires below { All (IsBelow (length state.old.found)) rules.now }
    requires within { All (λ k. k < length rules.now) users.now }
    ensures search { OnOk result (IsSearch state.new) }
    ensures extends { OnOk result (Extends state.old state.new) }
    ensures served { OnOk result ((n : ℕ) → n ≤ length state.old.queue → (i : ℕ) (d : RuleView) → i < length users.now → IsServed state.new n (slice_index_or rules.now (slice_index users.now i) d)) }
    ensures sound { OnOk result ((seeds : List ℕ) → IsSound rules.now seeds (holds state.old.found) → IsSound rules.now seeds (holds state.new.found)) }
{
    for rule in users {
        apply(&rules[*rule], state)?;
    }
    Ok(())
}

pub(crate) fn finish(
    rules: &[Rule],
    users: &[Items<usize>],
    state: &mut State,
) -> Result<(), NoMemory>
    requires search { IsSearch state.old }
    requires below { All (IsBelow (length state.old.found)) rules.now }
    requires facts { length users.now ≡ length state.old.found }
    requires within { All (All (λ k. k < length rules.now)) users.now }
    requires users { (fact : ℕ) → fact < length users.now → AreUsers rules.now fact (slice_index_or users.now fact []) }
    requires served { (k : ℕ) (d : RuleView) → k < length rules.now → IsServed state.old 0 (slice_index_or rules.now k d) }
    ensures extends { OnOk result (Extends state.old state.new) }
    ensures ruled { OnOk result (All (Obeys (holds state.new.found)) rules.now) }
    ensures sound { OnOk result ((seeds : List ℕ) → IsSound rules.now seeds (holds state.old.found) → IsSound rules.now seeds (holds state.new.found)) }
{
    let mut next = 0;
    while next < state.queue.len() {
        let fact = state.queue.as_slice()[next];
        next += 1;
        apply_users(rules, users[fact].as_slice(), state)?;
    }
    Ok(())
}
