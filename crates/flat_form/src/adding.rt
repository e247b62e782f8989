//! Adding to the lists.
ghost use Rattle.std.specs.Prelude.{◌≡◌, ◌<◌, ◌≤◌, ◌+◌, length, IfOk, OnOk};
ghost use Rattle.nat_solver.specs.View.{expr};
ghost use Rattle.flat_form.specs.Stands.{expr_at, name_at, node_type, range, type_at};
ghost use Rattle.flat_form.specs.Sound.{IsFlat, NodeIsSound, OpsAreSound};
ghost use Rattle.flat_form.specs.Growth.{Adds};

use crate::lists::{Flat, PlanArg, PlanOp, TypeNode};
use bit_slice::Name;
use nat_solver::NatExpr;
use sqlite_items::Items;
use std::alloc::Global;
use tlb_memory::NoMemory;

/// A length as a number of the lists. Memory ends before lists are longer.
pub(crate) fn number_of(length: usize) -> Result<u32, NoMemory>
    ensures { IfOk result (λ n. n ≡ length) }
{
    if length < u32::MAX as usize {
        Ok(length as u32)
    } else {
        Err(NoMemory)
    }
}

impl Flat {
    /// Empty lists.
    pub fn new(alloc: Global) -> Flat
        ensures { IsFlat result }
    {
        Flat {
            ops: Items::new(alloc),
            types: Items::new(alloc),
            args: Items::new(alloc),
            exprs: Items::new(alloc),
            names: Items::new(alloc),
        }
    }

    /// The number of the type that is added, which stands for the node.
    pub fn add_type(&mut self, node: TypeNode) -> Result<u32, NoMemory>
        requires flat { IsFlat self.old }
        requires sound { NodeIsSound self.old (length self.old.types) node }
        ensures adds { OnOk result (Adds self.old self.new) }
        ensures there { IfOk result (λ t. t < length self.new.types) }
        ensures stands { IfOk result (λ t. type_at self.new t ≡ node_type self.old (type_at self.old) node) }
    {
        let number = number_of(self.types.len())?;
        self.types.push(node)?;
        Ok(number)
    }

    /// The number of the expression that is added.
    pub fn add_expression(&mut self, expression: NatExpr) -> Result<u32, NoMemory>
        requires { IsFlat self.old }
        ensures same { OnOk result (self.new.types ≡ self.old.types) }
        ensures adds { OnOk result (Adds self.old self.new) }
        ensures there { IfOk result (λ e. e < length self.new.exprs) }
        ensures stands { IfOk result (λ e. expr_at self.new e ≡ expr expression) }
    {
        let at = number_of(self.exprs.len())?;
        self.exprs.push(expression)?;
        Ok(at)
    }

    /// The number of the name that is added.
    pub fn add_name(&mut self, name: Name) -> Result<u32, NoMemory>
        requires { IsFlat self.old }
        ensures same { OnOk result (self.new.types ≡ self.old.types) }
        ensures adds { OnOk result (Adds self.old self.new) }
        ensures there { IfOk result (λ x. x < length self.new.names) }
        ensures stands { IfOk result (λ x. name_at self.new x ≡ name) }
    {
        let at = number_of(self.names.len())?;
        self.names.push(name)?;
        Ok(at)
    }

    /// The number of the first of the arguments that are added.
    pub fn add_arguments(&mut self, args: Items<PlanArg>) -> Result<u32, NoMemory>
        requires { IsFlat self.old }
        ensures same { OnOk result (self.new.types ≡ self.old.types) }
        ensures adds { OnOk result (Adds self.old self.new) }
        ensures there { IfOk result (λ first. first + length args ≤ length self.new.args) }
        ensures stands { IfOk result (λ first. range self.new.args first (length args) ≡ args) }
    {
        let at = number_of(self.args.len())?;
        self.args.append(args)?;
        Ok(at)
    }

    /// The number of the first of the operations that are added.
    pub fn add_operations(&mut self, ops: Items<PlanOp>) -> Result<u32, NoMemory>
        requires flat { IsFlat self.old }
        requires sound { OpsAreSound self.old (length self.old.types) ops }
        ensures same { OnOk result (self.new.types ≡ self.old.types) }
        ensures adds { OnOk result (Adds self.old self.new) }
        ensures there { IfOk result (λ first. first + length ops ≤ length self.new.ops) }
        ensures stands { IfOk result (λ first. range self.new.ops first (length ops) ≡ ops) }
    {
        let at = number_of(self.ops.len())?;
        self.ops.append(ops)?;
        Ok(at)
    }
}
