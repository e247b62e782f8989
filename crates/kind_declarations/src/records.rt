//! The rules at one constructor.
ghost use Rattle.std.specs.Prelude.{◌≡◌, ◌≤◌, [], length, map, OnOk};
ghost use Rattle.tlb_syntax.specs.Limits.{IsConstructor};
ghost use Rattle.tlb_syntax.specs.Tree.{an_expr, no_exprs};
ghost use Rattle.tlb_syntax.specs.View.{constructor as constructor_view, expr, exprs};
ghost use Rattle.kind_declarations.specs.Faults.{Judges};
ghost use Rattle.kind_declarations.specs.Nodes.{output_nodes, record_and_outputs};
ghost use Rattle.kind_declarations.specs.Views.{all_by, item_context, path_by};
ghost use Rattle.kind_terms.specs.Views.{part_by};

use crate::error::Fault;
use crate::scope::Scope;
use kind_terms::{GREATEST, Shown, Types, inputs};
use sqlite_items::Items;
use std::alloc::Global;
use tlb_syntax::{Constructor, Expr};

impl<'a, 't> Scope<'a, 't> {
    // A parameter of a result: the number of an output.
    fn judge_param(&self, param: &Expr) -> Result<(), Fault>
        ensures { Judges (output_nodes (an_expr (expr param.now) no_exprs) (item_context self.now)) (path_by self.now)
            result }
    {
        match param {
            Expr::Out(number) => self.judge_number(number.get(), GREATEST, None),
            Expr::Sum(_, _, _) => Ok(()),
            Expr::Lit(_)
            | Expr::Named(_, _)
            | Expr::Nat32
            | Expr::Bits(_)
            | Expr::Below(_)
            | Expr::UpTo(_)
            | Expr::Star(_, _)
            | Expr::Ref(_)
            | Expr::Group(_) => Ok(()),
        }
    }

    // The outputs of a result.
    fn judge_outputs(&self, params: &[Expr]) -> Result<(), Fault>
        ensures { Judges (output_nodes (exprs params.now) (item_context self.now)) (path_by self.now) result }
    {
        for param in params {
            self.judge_param(param)?;
        }
        Ok(())
    }

    // The items of a constructor, and its outputs.
    fn judge_all(&mut self, constructor: &'a Constructor) -> Result<(), Fault>
        requires around { self.old.around ≤ length self.old.bindings }
        requires limits { IsConstructor (constructor_view constructor.now) }
        ensures judged { Judges (all_by self.old (constructor_view constructor.now)) (path_by self.new) result }
        ensures kept { OnOk result (self.new.path ≡ self.old.path) }
    {
        self.judge_items(constructor.items.as_slice())?;
        self.path.push(Shown::Result)?;
        self.judge_outputs(constructor.params.as_slice())?;
        self.path.pop();
        Ok(())
    }
}

/// The items of a constructor, and its outputs, after all declarations of types. On a refusal the path leads to the
/// item at fault, and else it is empty.
pub fn judge_record<'a, 't>(
    alloc: Global,
    types: &'t Types<'a>,
    constructor: &'a Constructor,
    path: &mut Items<Shown<'a>>,
) -> Result<(), Fault>
    requires { IsConstructor (constructor_view constructor.now) }
    ensures judged { Judges (record_and_outputs (map constructor_view types.now) (constructor_view constructor.now))
        (map part_by path.new) result }
    ensures kept { OnOk result (path.new ≡ []) }
{
    let inputs = inputs(alloc, constructor)?;
    let mut scope = Scope::new(alloc, types, inputs.as_slice());
    let judged = scope.judge_all(constructor);
    std::mem::swap(path, &mut scope.path);
    judged
}
