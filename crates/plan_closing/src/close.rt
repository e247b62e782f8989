//! Closing a type of a plan.
ghost use Rattle.std.specs.Prelude.{◌<◌, length};
ghost use Rattle.core_form.specs.Closing.{close};
ghost use Rattle.closed_type.specs.View.{closed_type as type_view};
ghost use Rattle.flat_form.specs.Stands.{type_at};
ghost use Rattle.flat_form.specs.Sound.{IsFlat};
ghost use Rattle.plan_closing.specs.Counted.{scope_of};
ghost use Rattle.plan_closing.specs.Gives.{Closes};

use crate::build::build_type;
use crate::count::count_type;
use crate::error::CloseError;
use closed_type::{ClosedType, MOST_NODES};
use flat_form::Flat;
use nat_solver::Env;
use std::alloc::Global;

/// The closed type of a type with the numbers and closed types of these slots, where outputs are left out.
///
/// Overflow comes also where a variable is not set, and of a type that is or contains a record, which has no closed
/// type: where neither is so, it comes of too large numbers alone.
///
/// All nodes are counted before any is made, so neither Overflow nor BigType is hidden where memory runs out.
pub fn close_type(
    alloc: Global,
    flat: &Flat,
    ty: u32,
    env: &Env,
    types: &[Option<ClosedType>],
) -> Result<ClosedType, CloseError>
    requires flat { IsFlat flat.now }
    requires there { ty < length flat.now.types }
    ensures { Closes type_view result (close (type_at flat.now ty) (scope_of env.now types.now)) }
{
    match count_type(flat, ty, env, types, 0) {
        None => Err(CloseError::Overflow),
        Some(count) => {
            if count > MOST_NODES {
                return Err(CloseError::BigType);
            }
            build_type(alloc, flat, ty, env, types)
        }
    }
}
