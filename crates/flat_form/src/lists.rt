//! The lists.
ghost use Rattle.std.specs.Prelude.{◌≡◌, ◌<◌, Some, length, slice_get};
ghost use Rattle.nat_solver.specs.View.{expr};
ghost use Rattle.flat_form.specs.Stands.{expr_at, name_at, node_type, range, type_at};
ghost use Rattle.flat_form.specs.Sound.{IsFlat, IsRange, NodeIsSound};

use bit_slice::Name;
use nat_solver::{NatExpr, Op, Pattern};
use sqlite_items::Items;

/// The slot of a field that sets none.
pub const NO_SLOT: u32 = 4_294_967_295;

/// The bit of a condition on a whole number.
pub const NO_BIT: u32 = 32;

/// An operation of a record.
#[derive(Clone, Copy)]
pub enum PlanOp {
    /// Two expressions with their operator, and the item's place in its record, from 1.
    Check(u32, Op, u32, u32),
    /// The slot of the unknown, the two sides of its equation, and the item's place.
    Solve(u32, u32, u32, u32),
    /// An expression and the bit tested, or `NO_BIT`: the condition of the next operation.
    When(u32, u32),
    /// A name, a type, and the slot of its number or `NO_SLOT`.
    Field(u32, u32, u32),
}

/// A type, by the numbers of its parts.
#[derive(Clone, Copy)]
pub enum TypeNode {
    Nat32,
    Bits(u32),
    Below(u32),
    UpTo(u32),
    Uint(u32),
    Int(u32),
    BitStr(u32),
    Whole,
    /// A slot.
    Variable(u32),
    Ref(u32),
    /// An expression and a type, as in the next two.
    Repeat(u32, u32),
    Dict(u32, u32),
    DictE(u32, u32),
    /// A name, the first argument and the count of arguments.
    Named(u32, u32, u32),
    /// The first operation and the count of operations.
    Group(u32, u32),
}

/// An argument of a named type.
#[derive(Clone, Copy)]
pub enum PlanArg {
    /// An expression.
    Nat(u32),
    /// A type.
    Ty(u32),
    /// The slot that the output sets.
    Out(u32),
}

/// An input of a constructor's result: a pattern of numbers, or the slot of a type variable.
#[derive(Clone, Copy)]
pub enum PlanInput {
    Nat(Pattern),
    Ty(u32),
}

/// A constructor's operations, and its number of slots.
#[derive(Clone, Copy)]
pub struct Entry {
    pub first: u32,
    pub count: u32,
    pub slots: u32,
}

/// What a plan has of a constructor beside the lists. Outputs are numbers of expressions.
#[derive(Drop)]
pub struct ConstructorPlan {
    pub entry: Entry,
    pub inputs: Items<PlanInput>,
    pub outputs: Items<u32>,
}

/// The lists. A number in one of them is the place of an operation, type, argument, expression or name in its list.
#[derive(Drop)]
pub struct Flat {
    pub ops: Items<PlanOp>,
    pub types: Items<TypeNode>,
    pub args: Items<PlanArg>,
    pub exprs: Items<NatExpr>,
    pub names: Items<Name>,
}

impl Flat {
    /// The type of this number, by its parts.
    #[tactic(auto, using(crate::specs::StandingLaws::node_is))]
    pub fn node(&self, ty: u32) -> TypeNode
        requires flat { IsFlat self.now }
        requires there { ty < length self.now.types }
        ensures at { slice_get self.now.types ty ≡ Some result }
        ensures stands { type_at self.now ty ≡ node_type self.now (type_at self.now) result }
        ensures sound { NodeIsSound self.now ty result }
    {
        match self.types.get(ty as usize) {
            Some(node) => *node,
            None => unreachable!(),
        }
    }

    pub fn name(&self, x: u32) -> &Name
        requires { x < length self.now.names }
        ensures { result.now ≡ name_at self.now x }
    {
        match self.names.get(x as usize) {
            Some(name) => name,
            None => unreachable!(),
        }
    }

    pub fn expression(&self, e: u32) -> &NatExpr
        requires { e < length self.now.exprs }
        ensures { expr result.now ≡ expr_at self.now e }
    {
        match self.exprs.get(e as usize) {
            Some(expression) => expression,
            None => unreachable!(),
        }
    }

    /// So many arguments from this one on.
    pub fn arguments(&self, first: u32, count: u32) -> &[PlanArg]
        requires { IsRange self.now.args first count }
        ensures { result.now ≡ range self.now.args first count }
    {
        let first = first as usize;
        &self.args.as_slice()[first..first + count as usize]
    }

    /// So many operations from this one on.
    pub fn operations(&self, first: u32, count: u32) -> &[PlanOp]
        requires { IsRange self.now.ops first count }
        ensures { result.now ≡ range self.now.ops first count }
    {
        let first = first as usize;
        &self.ops.as_slice()[first..first + count as usize]
    }
}
