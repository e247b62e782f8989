//! The least set of facts that is closed under rules.
ghost use Rattle.std.specs.Prelude.{◌<◌, [], length, All, IfOk};
ghost use Rattle.tlb_guard.specs.Facts.{IsBelow, IsLeast};
ghost use Rattle.tlb_guard.specs.Users.{AreUsersTo, AreNumbersBelow};

use crate::rules::{Rule, State, add_all, apply_all, finish};
use crate::users::users_of;
use sqlite_items::Items;
use std::alloc::Global;
use tlb_memory::NoMemory;

/// The least set that holds the seeds and is closed under the rules, where `users` has for each fact the rules with it in
/// their bodies.
pub(crate) fn least_with(
    alloc: Global,
    rules: &[Rule],
    users: &[Items<usize>],
    seeds: &[usize],
) -> Result<Items<bool>, NoMemory>
    requires below { All (IsBelow (length users.now)) rules.now }
    requires bounded { AreNumbersBelow (length rules.now) users.now }
    requires users { AreUsersTo users.now rules.now (length rules.now) }
    requires seeds { All (λ x. x < length users.now) seeds.now }
    ensures { IfOk result (IsLeast rules.now seeds.now (length users.now)) }
{
    let mut state = State {
        found: Items::from_vec(vec![in alloc; false; users.len()]?),
        queue: Items::new(alloc),
    };
    add_all(&mut state, seeds)?;
    apply_all(rules, &mut state)?;
    finish(rules, users, &mut state)?;
    Ok(state.found)
}

/// The least set of facts from 0 to `count` that is closed under the rules.
pub(crate) fn least(alloc: Global, count: usize, rules: &[Rule]) -> Result<Items<bool>, NoMemory>
    requires { All (IsBelow count) rules.now }
    ensures { IfOk result (IsLeast rules.now [] count) }
{
    let users = users_of(alloc, count, rules)?;
    let no_seeds: [usize; 0] = [];
    least_with(alloc, rules, users.as_slice(), &no_seeds)
}
