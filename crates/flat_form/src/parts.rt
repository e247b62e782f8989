//! Types and operations with their parts.
ghost use Rattle.std.specs.Prelude.{ℕ, ◌≡◌, ◌≢◌, ◌<◌, [], length, Some, None, IfOk, OnOk};
ghost use Rattle.nat_solver.specs.Number.{OneUnknown, unknowns};
ghost use Rattle.nat_solver.specs.View.{expr};
ghost use Rattle.core_form.specs.Core as core;
ghost use Rattle.flat_form.specs.Stands.{args_in, items_in, node_type, slot_of, expr_at, type_at};
ghost use Rattle.flat_form.specs.Sound.{ArgsAreSound, IsFlat, IsPlainNumber, NodeIsSound};
ghost use Rattle.flat_form.specs.Growth.{Adds};
ghost use Rattle.flat_form.specs.Parts.{AreOps, IsPlainCondition, args_so_far, condition_of, items_so_far};
ghost use Rattle.flat_form.specs.Parts.{sized, with_argument, with_item};

use crate::adding::number_of;
use crate::lists::{Flat, PlanArg, PlanOp, TypeNode};
use bit_slice::Name;
use nat_solver::{NatExpr, Op};
use sqlite_items::Items;
use tlb_memory::NoMemory;

/// The forms of a type with a number alone.
#[derive(Clone, Copy)]
pub enum Sized {
    Bits,
    Below,
    UpTo,
    Uint,
    Int,
    BitStr,
}

fn sized_node(form: Sized, number: u32) -> TypeNode
    ensures stands { (f : Flat) (at : ℕ → core.Ty) → node_type f at result ≡ sized form (expr_at f number) }
    ensures sound { (f : Flat) (top : ℕ) → IsPlainNumber f number → NodeIsSound f top result }
{
    match form {
        Sized::Bits => TypeNode::Bits(number),
        Sized::Below => TypeNode::Below(number),
        Sized::UpTo => TypeNode::UpTo(number),
        Sized::Uint => TypeNode::Uint(number),
        Sized::Int => TypeNode::Int(number),
        Sized::BitStr => TypeNode::BitStr(number),
    }
}

impl Flat {
    pub fn add_sized(&mut self, form: Sized, number: NatExpr) -> Result<u32, NoMemory>
        requires flat { IsFlat self.old }
        requires plain { unknowns (expr number) ≡ [] }
        ensures adds { OnOk result (Adds self.old self.new) }
        ensures there { IfOk result (λ t. t < length self.new.types) }
        ensures stands { IfOk result (λ t. type_at self.new t ≡ sized form (expr number)) }
    {
        let number = self.add_expression(number)?;
        self.add_type(sized_node(form, number))
    }

    pub fn add_ref(&mut self, inner: u32) -> Result<u32, NoMemory>
        requires flat { IsFlat self.old }
        requires inner { inner < length self.old.types }
        ensures adds { OnOk result (Adds self.old self.new) }
        ensures there { IfOk result (λ t. t < length self.new.types) }
        ensures stands { IfOk result (λ t. type_at self.new t ≡ core.ref (type_at self.old inner)) }
    {
        self.add_type(TypeNode::Ref(inner))
    }

    pub fn add_repeat(&mut self, number: NatExpr, inner: u32) -> Result<u32, NoMemory>
        requires flat { IsFlat self.old }
        requires plain { unknowns (expr number) ≡ [] }
        requires inner { inner < length self.old.types }
        ensures adds { OnOk result (Adds self.old self.new) }
        ensures there { IfOk result (λ t. t < length self.new.types) }
        ensures stands { IfOk result (λ t. type_at self.new t ≡ core.repeat (expr number) (type_at self.old inner)) }
    {
        let number = self.add_expression(number)?;
        self.add_type(TypeNode::Repeat(number, inner))
    }

    pub fn add_dict(&mut self, number: NatExpr, inner: u32) -> Result<u32, NoMemory>
        requires flat { IsFlat self.old }
        requires plain { unknowns (expr number) ≡ [] }
        requires inner { inner < length self.old.types }
        ensures adds { OnOk result (Adds self.old self.new) }
        ensures there { IfOk result (λ t. t < length self.new.types) }
        ensures stands { IfOk result (λ t. type_at self.new t ≡ core.dict (expr number) (type_at self.old inner)) }
    {
        let number = self.add_expression(number)?;
        self.add_type(TypeNode::Dict(number, inner))
    }

    pub fn add_dict_e(&mut self, number: NatExpr, inner: u32) -> Result<u32, NoMemory>
        requires flat { IsFlat self.old }
        requires plain { unknowns (expr number) ≡ [] }
        requires inner { inner < length self.old.types }
        ensures adds { OnOk result (Adds self.old self.new) }
        ensures there { IfOk result (λ t. t < length self.new.types) }
        ensures stands { IfOk result (λ t. type_at self.new t ≡ core.dict_e (expr number) (type_at self.old inner)) }
    {
        let number = self.add_expression(number)?;
        self.add_type(TypeNode::DictE(number, inner))
    }

    /// A declared type with these arguments.
    pub fn add_named(&mut self, name: Name, args: Items<PlanArg>) -> Result<u32, NoMemory>
        requires flat { IsFlat self.old }
        requires sound { ArgsAreSound self.old (length self.old.types) args }
        ensures adds { OnOk result (Adds self.old self.new) }
        ensures there { IfOk result (λ t. t < length self.new.types) }
        ensures stands { IfOk result (λ t. type_at self.new t ≡ core.named name (args_so_far self.old args)) }
    {
        let count = number_of(args.len())?;
        let first = self.add_arguments(args)?;
        let name = self.add_name(name)?;
        self.add_type(TypeNode::Named(name, first, count))
    }

    /// A record of these operations.
    pub fn add_group(&mut self, ops: Items<PlanOp>) -> Result<u32, NoMemory>
        requires flat { IsFlat self.old }
        requires ops { AreOps self.old ops }
        ensures adds { OnOk result (Adds self.old self.new) }
        ensures there { IfOk result (λ t. t < length self.new.types) }
        ensures stands { IfOk result (λ t. type_at self.new t ≡ core.group (items_so_far self.old ops)) }
    {
        let count = number_of(ops.len())?;
        let first = self.add_operations(ops)?;
        self.add_type(TypeNode::Group(first, count))
    }

    /// Puts an argument that is a number after these.
    pub fn push_number(
        &mut self,
        args: &mut Items<PlanArg>,
        number: NatExpr,
    ) -> Result<(), NoMemory>
        requires flat { IsFlat self.old }
        requires args { ArgsAreSound self.old (length self.old.types) args.old }
        requires plain { unknowns (expr number) ≡ [] }
        ensures adds { OnOk result (Adds self.old self.new) }
        ensures args { OnOk result (ArgsAreSound self.new (length self.new.types) args.new) }
        ensures stands { OnOk result (args_so_far self.new args.new
            ≡ with_argument (args_so_far self.old args.old) (core.nat_arg (expr number))) }
    {
        let number = self.add_expression(number)?;
        args.push(PlanArg::Nat(number))?;
        Ok(())
    }

    /// Puts an argument that is a type after these.
    pub fn push_type(&self, args: &mut Items<PlanArg>, ty: u32) -> Result<(), NoMemory>
        requires args { ArgsAreSound self.now (length self.now.types) args.old }
        requires there { ty < length self.now.types }
        ensures args { OnOk result (ArgsAreSound self.now (length self.now.types) args.new) }
        ensures stands { OnOk result (args_so_far self.now args.new
            ≡ with_argument (args_so_far self.now args.old) (core.ty_arg (type_at self.now ty))) }
    {
        args.push(PlanArg::Ty(ty))?;
        Ok(())
    }

    /// Puts an output after these arguments.
    pub fn push_output(&self, args: &mut Items<PlanArg>, slot: u32) -> Result<(), NoMemory>
        requires args { ArgsAreSound self.now (length self.now.types) args.old }
        ensures args { OnOk result (ArgsAreSound self.now (length self.now.types) args.new) }
        ensures stands { OnOk result (args_so_far self.now args.new
            ≡ with_argument (args_so_far self.now args.old) (core.out_arg slot)) }
    {
        args.push(PlanArg::Out(slot))?;
        Ok(())
    }

    /// Puts a field after these operations, with its condition: a number, and the bit tested or `NO_BIT`.
    pub fn push_field(
        &mut self,
        ops: &mut Items<PlanOp>,
        name: Name,
        ty: u32,
        slot: u32,
        condition: Option<(NatExpr, u32)>,
    ) -> Result<(), NoMemory>
        requires flat { IsFlat self.old }
        requires ops { AreOps self.old ops.old }
        requires there { ty < length self.old.types }
        requires plain { IsPlainCondition condition }
        ensures adds { OnOk result (Adds self.old self.new) }
        ensures ops { OnOk result (AreOps self.new ops.new) }
        ensures stands { OnOk result (items_so_far self.new ops.new ≡ with_item (items_so_far self.old ops.old)
            (core.field name (slot_of slot) (condition_of condition) (type_at self.old ty))) }
    {
        match condition {
            None => {
                let name = self.add_name(name)?;
                ops.push(PlanOp::Field(name, ty, slot))?;
                Ok(())
            }
            Some((number, bit)) => {
                let number = self.add_expression(number)?;
                let name = self.add_name(name)?;
                ops.push(PlanOp::When(number, bit))?;
                ops.push(PlanOp::Field(name, ty, slot))?;
                Ok(())
            }
        }
    }

    /// Puts a check after these operations.
    pub fn push_check(
        &mut self,
        ops: &mut Items<PlanOp>,
        left: NatExpr,
        op: Op,
        right: NatExpr,
        place: u32,
    ) -> Result<(), NoMemory>
        requires flat { IsFlat self.old }
        requires ops { AreOps self.old ops.old }
        requires left { unknowns (expr left) ≡ [] }
        requires right { unknowns (expr right) ≡ [] }
        ensures adds { OnOk result (Adds self.old self.new) }
        ensures ops { OnOk result (AreOps self.new ops.new) }
        ensures stands { OnOk result (items_so_far self.new ops.new
            ≡ with_item (items_so_far self.old ops.old) (core.check (expr left) op (expr right) place)) }
    {
        let left = self.add_expression(left)?;
        let right = self.add_expression(right)?;
        ops.push(PlanOp::Check(left, op, right, place))?;
        Ok(())
    }

    /// Puts an equation with this unknown after these operations.
    pub fn push_solve(
        &mut self,
        ops: &mut Items<PlanOp>,
        slot: u32,
        left: NatExpr,
        right: NatExpr,
        place: u32,
    ) -> Result<(), NoMemory>
        requires flat { IsFlat self.old }
        requires ops { AreOps self.old ops.old }
        requires one { OneUnknown (expr left) (expr right) slot }
        ensures adds { OnOk result (Adds self.old self.new) }
        ensures ops { OnOk result (AreOps self.new ops.new) }
        ensures stands { OnOk result (items_so_far self.new ops.new
            ≡ with_item (items_so_far self.old ops.old) (core.solve slot (expr left) (expr right) place)) }
    {
        let left = self.add_expression(left)?;
        let right = self.add_expression(right)?;
        ops.push(PlanOp::Solve(slot, left, right, place))?;
        Ok(())
    }
}
