//! The outputs of a value.
ghost use Rattle.std.specs.Prelude.{◌≡◌, ◌<◌, List, Option, length};
ghost use Rattle.closed_type.specs.declared.tree.ClosedType.{ClosedType as TheClosedType};
ghost use Rattle.core_form.specs.Core.{sets};
ghost use Rattle.core_form.specs.Scope as scopes;
ghost use Rattle.flat_form.specs.Sound.{IsFlat};
ghost use Rattle.flat_form.specs.Stands.{slot_of, type_at};
ghost use Rattle.plan_closing.specs.Counted.{scope_of};
ghost use Rattle.plan_building.specs.View.{outputs_of};

use flat_form::Flat;
use nat_solver::Env;
use plan_reading::bind;
use sqlite_items::Items;

/// The outputs of a value, most often none or its own number.
#[derive(Drop)]
pub enum Outputs {
    Empty,
    One(u32),
    Several(Items<u32>),
}

/// Sets the slots of a field to its outputs.
pub fn bind_outputs(flat: &Flat, ty: u32, slot: u32, outputs: &Outputs, env: &mut Env)
    requires flat { IsFlat flat.now }
    requires there { ty < length flat.now.types }
    ensures { (types : List (Option TheClosedType))
        → scopes.bind (sets (slot_of slot) (type_at flat.now ty)) (outputs_of outputs.now) (scope_of env.old types)
        ≡ scope_of env.new types }
{
    match outputs {
        Outputs::Empty => bind(flat, ty, slot, &[], env),
        Outputs::One(number) => bind(flat, ty, slot, &[*number], env),
        Outputs::Several(numbers) => bind(flat, ty, slot, numbers.as_slice(), env),
    }
}
