//! Edges between types, by the types' numbers, and the first that is on a cycle.
ghost use Rattle.std.specs.Prelude.{◌≡◌, ℕ, All, IfOk, OnOk, List, length, map, find, option_map};
ghost use Rattle.tlb_guard.specs.declared.edges.Edge.{Edge as EdgeView};
ghost use Rattle.tlb_guard.specs.Facts.{IsBelow};
ghost use Rattle.tlb_guard.specs.Users.{AreNumbersBelow, AreUsersTo};
ghost use Rattle.tlb_guard.specs.Edges.{AreOffCycles, AreSearches, AreTargets, IsEdgeBelow, back_rule, is_round_trip};

use crate::least::{least, least_with};
use crate::rules::{Rule, is_found};
use crate::users::{no_users, users_of};
use sqlite_items::Items;
use std::alloc::{AllocError, Global};
use tlb_memory::NoMemory;

/// An item of a constructor: the places of both, from 0.
#[derive(Clone, Copy, Debug, PartialEq, Eq)]
pub struct Unguarded {
    pub constructor: usize,
    pub item: usize,
}

/// A type exposes another through an item.
#[derive(Clone, Copy)]
pub struct Edge {
    pub from: usize,
    pub to: usize,
    pub at: Unguarded,
}

// A type reaches what the types to which it has edges reach.
fn back_rules(alloc: Global, edges: &[Edge]) -> Result<Items<Rule>, NoMemory>
    ensures { IfOk result (λ rules. rules ≡ map back_rule edges.now) }
{
    let mut rules: Items<Rule> = Items::new(alloc);
    for edge in edges {
        let body = Items::from_slice(alloc, &[edge.to])?;
        rules.push(Rule {
            head: edge.from,
            body,
        })?;
    }
    Ok(rules)
}

// For each of `count` types those to which it has edges.
fn targets_of(alloc: Global, count: usize, edges: &[Edge]) -> Result<Vec<Items<usize>>, NoMemory>
    requires { All (IsEdgeBelow count) edges.now }
    ensures size { IfOk result (λ targets. length targets.items ≡ count) }
    ensures below { IfOk result (λ targets. AreNumbersBelow count targets.items) }
    ensures targets { IfOk result (λ targets. AreTargets targets.items edges.now) }
{
    let mut targets = no_users(alloc, count)?;
    for edge in edges {
        targets[edge.from].push(edge.to)?;
    }
    Ok(targets)
}

// The types that come to an end: a type does where all types to which it has edges do.
fn ending_types(alloc: Global, count: usize, edges: &[Edge]) -> Result<Items<bool>, NoMemory>
    requires { All (IsEdgeBelow count) edges.now }
    ensures { IfOk result (AreOffCycles edges.now) }
{
    let targets = targets_of(alloc, count, edges)?;
    let mut rules: Items<Rule> = Items::new(alloc);
    for (head, targets) in targets.iter().enumerate() {
        let body = Items::from_slice(alloc, targets.as_slice())?;
        rules.push(Rule { head, body })?;
    }
    least(alloc, count, rules.as_slice())
}

fn no_searches(alloc: Global, count: usize) -> Result<Vec<Option<Items<bool>>>, NoMemory>
    ensures size { IfOk result (λ searches. length searches.items ≡ count) }
    ensures none { IfOk result (λ searches. (edges : List EdgeView) → AreSearches edges searches.items) }
{
    let mut searches = Vec::new(alloc);
    for _end in 0..count {
        searches.push(None).map_err(AllocError::from)?;
    }
    Ok(searches)
}

// Whether the edge is on a cycle, by a search back from its source, which is kept.
fn is_on_cycle(
    alloc: Global,
    rules: &[Rule],
    users: &[Items<usize>],
    edge: &Edge,
    searches: &mut [Option<Items<bool>>],
) -> Result<bool, NoMemory>
    requires below { All (IsBelow (length users.now)) rules.now }
    requires bounded { AreNumbersBelow (length rules.now) users.now }
    requires users { AreUsersTo users.now rules.now (length rules.now) }
    requires edge { IsEdgeBelow (length users.now) edge.now }
    requires size { length searches.old ≡ length users.now }
    ensures searches { OnOk result ((edges : List EdgeView) → rules.now ≡ map back_rule edges → AreSearches edges searches.old → AreSearches edges searches.new) }
    ensures found { IfOk result (λ yes. (edges : List EdgeView) → rules.now ≡ map back_rule edges → AreSearches edges searches.old → yes ≡ is_round_trip edges edge.now) }
{
    if let Some(reaching) = &searches[edge.from] {
        return Ok(is_found(reaching.as_slice(), edge.to));
    }
    let reaching = least_with(alloc, rules, users, &[edge.from])?;
    let found = is_found(reaching.as_slice(), edge.to);
    searches[edge.from] = Some(reaching);
    Ok(found)
}

/// The first edge that is on a cycle.
pub fn first_on_cycle(
    alloc: Global,
    count: usize,
    edges: &[Edge],
) -> Result<Option<Unguarded>, NoMemory>
    requires { All (IsEdgeBelow count) edges.now }
    ensures { IfOk result (λ first. first ≡ option_map (λ (e : EdgeView). e.at) (find (is_round_trip edges.now) edges.now)) }
{
    // No type that comes to an end leads back to itself, and in a guarded schema each does.
    let ending = ending_types(alloc, count, edges)?;
    let rules = back_rules(alloc, edges)?;
    let users = users_of(alloc, count, rules.as_slice())?;
    let mut searches = no_searches(alloc, count)?;
    for edge in edges {
        if !is_found(ending.as_slice(), edge.to) {
            let rules = rules.as_slice();
            if is_on_cycle(
                alloc,
                rules,
                users.as_slice(),
                edge,
                searches.as_mut_slice(),
            )? {
                return Ok(Some(edge.at));
            }
        }
    }
    Ok(None)
}
