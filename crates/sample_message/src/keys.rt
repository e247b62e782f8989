//! The keys of the message's dictionary.
ghost use Rattle.std.specs.Prelude.{◌≡◌, ◌++◌, ◌∷◌, [], IfOk};
ghost use Rattle.sample_message.specs.Keys.{drawn as drawn_keys, drawn_next as next_of, in_order};

use std::alloc::{AllocError, Global};
use tlb_memory::NoMemory;

/// The number that is drawn after this one.
pub(crate) fn drawn_next(number: u32) -> u32
    ensures { result ≡ next_of number }
{
    let product = 1_103_515_245 * u64::from(number) + 12_345;
    (product % 4_294_967_296) as u32
}

fn push_key(keys: &mut Vec<u32>, key: u32) -> Result<(), NoMemory>
    ensures { IfOk result (λ u. keys.new.items ≡ keys.old.items ++ key ∷ []) }
{
    keys.push(key).map_err(AllocError::from)?;
    Ok(())
}

// So many keys, as they are drawn.
fn drawn(alloc: Global, count: u32) -> Result<Vec<u32>, NoMemory>
    ensures { IfOk result (λ keys. keys.items ≡ drawn_keys count) }
{
    let mut keys = Vec::new(alloc);
    let mut key = count;
    'keys: for _place in 0..count {
        key = drawn_next(key);
        push_key(&mut keys, key)?;
    }
    Ok(keys)
}

/// So many keys, in increasing order.
pub(crate) fn ordered_keys(alloc: Global, count: u32) -> Result<Vec<u32>, NoMemory>
    ensures { IfOk result (λ keys. keys.items ≡ in_order (drawn_keys count)) }
{
    let mut keys = drawn(alloc, count)?;
    keys.sort_unstable();
    Ok(keys)
}
