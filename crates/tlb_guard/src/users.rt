//! For each fact the rules that have it in their bodies.
ghost use Rattle.std.specs.Prelude.{◌≡◌, ℕ, ◌+◌, ◌<◌, length, All, OnOk, IfOk, slice_index};
ghost use Rattle.tlb_guard.specs.Facts.{IsBelow};
ghost use Rattle.tlb_guard.specs.Users.{HasUser, AreUsersTo, AreNumbersBelow};

use crate::rules::Rule;
use sqlite_items::Items;
use std::alloc::{AllocError, Global};
use tlb_memory::NoMemory;

/// For each of `count` facts no rules.
pub(crate) fn no_users(alloc: Global, count: usize) -> Result<Vec<Items<usize>>, NoMemory>
    ensures { IfOk result (λ users. (length users.items ≡ count) × AreNumbersBelow 0 users.items) }
{
    let mut users = Vec::new(alloc);
    for _fact in 0..count {
        users.push(Items::new(alloc)).map_err(AllocError::from)?;
    }
    Ok(users)
}

fn add_user(users: &mut [Items<usize>], number: usize, body: &[usize]) -> Result<(), NoMemory>
    requires { All (λ b. b < length users.old) body.now }
    ensures kept { OnOk result ((fact rule : ℕ) → HasUser users.old fact rule → HasUser users.new fact rule) }
    ensures added { OnOk result ((j : ℕ) → j < length body.now → HasUser users.new (slice_index body.now j) number) }
    ensures bounded { OnOk result (AreNumbersBelow number users.old → AreNumbersBelow (number + 1) users.new) }
{
    for fact in body {
        users[*fact].push(number)?;
    }
    Ok(())
}

/// For each of `count` facts the rules that have it in their bodies.
pub(crate) fn users_of(
    alloc: Global,
    count: usize,
    rules: &[Rule],
) -> Result<Vec<Items<usize>>, NoMemory>
    requires { All (IsBelow count) rules.now }
    ensures facts { IfOk result (λ users. length users.items ≡ count) }
    ensures bounded { IfOk result (λ users. AreNumbersBelow (length rules.now) users.items) }
    ensures users { IfOk result (λ users. AreUsersTo users.items rules.now (length rules.now)) }
{
    let mut users = no_users(alloc, count)?;
    for (number, rule) in rules.iter().enumerate() {
        add_user(users.as_mut_slice(), number, rule.body.as_slice())?;
    }
    Ok(users)
}
