//! What is left of chosen paths on the way through a value.
ghost use Rattle.std.specs.Prelude.{◌≡◌, ◌∷◌, List, IfOk, bytes_eq, map, option_map};
ghost use Rattle.pruning.specs.Spots.{same_stride, takes_key};
ghost use Rattle.schema_leads.specs.Leads.{begins};
ghost use Rattle.typed_value.specs.Paths.{Stride};
ghost use Rattle.typed_value.specs.View.{stride};
ghost use Rattle.pruned_proof.specs.Proved.{path_views};
ghost use Rattle.pruned_proof.specs.View.{reached as reached_stride, rest_of, rests_of};
ghost use Rattle.pruned_proof.specs.Wanted as plain;

use bit_slice::{BitSlice, BitString, Name};
use std::alloc::{AllocError, Global};
use tlb_memory::NoMemory;
use typed_value::{Path, Step};

/// A step that a value is reached by.
#[derive(Clone, Copy)]
pub(crate) enum Reached<'a> {
    Field(&'a Name),
    Item(u32),
    Key(&'a BitString),
}

/// Of the chosen paths that lead to a value or through it, the steps that are left from there on; of those that end
/// before it, none.
#[derive(Drop)]
pub(crate) struct Wanted<'a> {
    rests: Vec<&'a [Step]>,
}

fn same_bits(a: &BitString, b: &BitString) -> bool
    ensures { result ≡ bytes_eq a.now b.now }
{
    a.slice().same(b.slice())
}

// Whether it is the same step.
fn same(reached: Reached<'_>, step: &Step) -> bool
    ensures { result ≡ same_stride (reached_stride reached.entry) (stride step.now) }
{
    match reached {
        Reached::Field(found) => match step {
            Step::Field(name) => found.text() == name.text(),
            Step::Item(_) | Step::Key(_) => false,
        },
        Reached::Item(found) => match step {
            Step::Item(i) => found == *i,
            Step::Field(_) | Step::Key(_) => false,
        },
        Reached::Key(found) => match step {
            Step::Key(key) => same_bits(found, key),
            Step::Field(_) | Step::Item(_) => false,
        },
    }
}

fn begins(prefix: &BitSlice<'_>, key: &BitString) -> bool
    ensures { result ≡ begins prefix.now key.now }
{
    key.slice().begins_with(prefix.again())
}

// Whether it is a key that the prefix begins.
fn takes_key(prefix: &BitSlice<'_>, step: &Step) -> bool
    ensures { (rest : List Stride) → result ≡ takes_key prefix.now (stride step.now ∷ rest) }
{
    match step {
        Step::Key(key) => begins(prefix, key),
        Step::Field(_) | Step::Item(_) => false,
    }
}

// What a step leaves of the steps.
fn advanced<'a>(reached: Reached<'_>, rest: &'a [Step]) -> Option<&'a [Step]>
    ensures { option_map rest_of result ≡ plain.advanced (reached_stride reached.entry) (map stride rest.entry.now) }
{
    match rest.split_first() {
        None => Some(rest),
        Some((step, others)) => {
            if same(reached, step) {
                Some(others)
            } else {
                None
            }
        }
    }
}

// What an edge leaves of them.
fn entering<'a>(prefix: &BitSlice<'_>, rest: &'a [Step]) -> Option<&'a [Step]>
    ensures { option_map rest_of result ≡ plain.entering prefix.now (map stride rest.entry.now) }
{
    match rest.first() {
        None => Some(rest),
        Some(step) => {
            if takes_key(prefix, step) {
                Some(rest)
            } else {
                None
            }
        }
    }
}

impl<'a> Wanted<'a> {
    /// All steps of the paths.
    pub(crate) fn of(alloc: Global, paths: &'a [Path]) -> Result<Wanted<'a>, NoMemory>
        ensures { IfOk result (λ w. rests_of w ≡ path_views paths.entry.now) }
    {
        let mut rests = Vec::new(alloc);
        'paths: for path in paths {
            rests.push(path.steps.as_slice()).map_err(AllocError::from)?;
        }
        Ok(Wanted { rests })
    }

    /// Whether no path leads to the value or through it.
    pub(crate) fn is_nothing(&self) -> bool
        ensures { result ≡ plain.is_nothing (rests_of self.now) }
    {
        self.rests.is_empty()
    }

    /// Whether a path ends at the value or before it.
    pub(crate) fn is_whole(&self) -> bool
        ensures { result ≡ plain.is_whole (rests_of self.now) }
    {
        'rests: for rest in self.rests.as_slice() {
            if rest.is_empty() {
                return true;
            }
        }
        false
    }

    /// From the value that the step leads to.
    pub(crate) fn onward(&self, alloc: Global, reached: Reached<'_>) -> Result<Wanted<'a>, NoMemory>
        ensures { IfOk result (λ w. rests_of w ≡ plain.onward (reached_stride reached.entry) (rests_of self.now)) }
    {
        let mut rests = Vec::new(alloc);
        'rests: for rest in self.rests.as_slice() {
            if let Some(left) = advanced(reached, rest) {
                rests.push(left).map_err(AllocError::from)?;
            }
        }
        Ok(Wanted { rests })
    }

    /// From a map on, those that go on with a key that the prefix begins.
    pub(crate) fn below(&self, alloc: Global, prefix: &BitSlice<'_>) -> Result<Wanted<'a>, NoMemory>
        ensures { IfOk result (λ w. rests_of w ≡ plain.below prefix.now (rests_of self.now)) }
    {
        let mut rests = Vec::new(alloc);
        'rests: for rest in self.rests.as_slice() {
            if let Some(left) = entering(prefix, rest) {
                rests.push(left).map_err(AllocError::from)?;
            }
        }
        Ok(Wanted { rests })
    }
}
