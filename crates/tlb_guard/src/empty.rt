//! What may take nothing.
ghost use Rattle.std.specs.Prelude.{◌≡◌, ℕ, List, length, OnOk, IfOk};
ghost use Rattle.tlb_syntax.specs.View.{expr, exprs, item, items, constructor as constructor_view};
ghost use Rattle.tlb_guard.specs.Facts.{holds};
ghost use Rattle.tlb_guard.specs.Numbering.{types_in, views};
ghost use Rattle.tlb_guard.specs.Scoping.{IsScopePrefix};
ghost use Rattle.tlb_guard.specs.Views.{AddsRule, IsNeeding, KeepsTypes, MeetsNeeds};
ghost use Rattle.tlb_guard.specs.Empty.{may_be_empty, may_be_empty_type, may_be_empty_item, may_be_empty_items, may_take_nothing};

use crate::least::least;
use crate::rules::Rule;
use crate::scope::{enter, is_at_least, is_variable, leave, may_built_in_be_empty};
use crate::types::{Types, has_empty_tag};
use bit_slice::Name;
use sqlite_items::Items;
use std::alloc::Global;
use tlb_memory::NoMemory;
use tlb_syntax::{Constructor, Expr, FieldType, Item};

/// Gathers the declared types that have to take nothing, so that an expression may.
#[derive(Drop)]
struct Needs<'s, 'a> {
    types: &'s Types<'a>,
    scope: Items<&'a Name>,
    needed: Items<usize>,
}

impl<'s, 'a> Needs<'s, 'a> {
    // Whether the named type may take nothing if the needed types may.
    fn of_name(&mut self, name: &'a Name, args: &'a [Expr]) -> Result<bool, NoMemory>
        ensures types { OnOk result (KeepsTypes self.old self.new) }
        ensures scope { OnOk result (self.new.scope ≡ self.old.scope) }
        ensures needs { IfOk result (IsNeeding (λ q scope. may_be_empty_type q name.now (exprs args.now)) self.old self.new) }
    {
        if let Some(may) = may_built_in_be_empty(name, args) {
            return Ok(may);
        }
        match self.types.place(name) {
            None => Ok(false),
            Some(number) => {
                self.needed.push(number)?;
                Ok(true)
            }
        }
    }

    #[cycle(needs)]
    fn of_expr(&mut self, e: &'a Expr) -> Result<bool, NoMemory>
        ensures types { OnOk result (KeepsTypes self.old self.new) }
        ensures scope { OnOk result (self.new.scope ≡ self.old.scope) }
        ensures needs { IfOk result (IsNeeding (λ q scope. may_be_empty q scope (expr e.now)) self.old self.new) }
    {
        match e {
            Expr::Named(name, args) => {
                if is_variable(self.scope.as_slice(), name, args.as_slice()) {
                    Ok(true)
                } else {
                    self.of_name(name, args.as_slice())
                }
            }
            Expr::Nat32 | Expr::Ref(_) => Ok(false),
            Expr::Bits(args) | Expr::UpTo(args) => Ok(!is_at_least(1, args.as_slice())),
            Expr::Below(args) => Ok(!is_at_least(2, args.as_slice())),
            Expr::Group(list) => self.of_group(list.as_slice()),
            Expr::Sum(_, _, _) => Ok(true),
            Expr::Lit(_) | Expr::Star(_, _) | Expr::Out(_) => Ok(true),
        }
    }

    #[cycle(needs)]
    fn of_group(&mut self, list: &'a [Item]) -> Result<bool, NoMemory>
        ensures types { OnOk result (KeepsTypes self.old self.new) }
        ensures scope { OnOk result (self.new.scope ≡ self.old.scope) }
        ensures needs { IfOk result (IsNeeding (λ q scope. may_be_empty_items q scope (items list.now)) self.old self.new) }
    {
        let around = self.scope.len();
        let may = self.of_items(list)?;
        leave(&mut self.scope, around);
        Ok(may)
    }

    #[cycle(needs)]
    fn of_items(&mut self, list: &'a [Item]) -> Result<bool, NoMemory>
        ensures types { OnOk result (KeepsTypes self.old self.new) }
        ensures scope { OnOk result (IsScopePrefix self.old.scope self.new.scope) }
        ensures needs { IfOk result (IsNeeding (λ q scope. may_be_empty_items q scope (items list.now)) self.old self.new) }
    {
        for i in list {
            if !self.of_item(i)? {
                return Ok(false);
            }
            enter(&mut self.scope, i)?;
        }
        Ok(true)
    }

    #[cycle(needs)]
    fn of_item(&mut self, i: &'a Item) -> Result<bool, NoMemory>
        ensures types { OnOk result (KeepsTypes self.old self.new) }
        ensures scope { OnOk result (self.new.scope ≡ self.old.scope) }
        ensures needs { IfOk result (IsNeeding (λ q scope. may_be_empty_item q scope (item i.now)) self.old self.new) }
    {
        match i {
            Item::Explicit(_, FieldType::Plain(e)) => self.of_expr(e),
            _ => Ok(true),
        }
    }
}

// The types that have to take nothing, so that the constructor may; `None` where it never may.
fn needs_of<'a>(
    alloc: Global,
    types: &Types<'a>,
    constructor: &'a Constructor,
) -> Result<Option<Items<usize>>, NoMemory>
    ensures { IfOk result (λ needs. MeetsNeeds (views types.now) (constructor_view constructor.now) needs) }
{
    if !has_empty_tag(constructor) {
        return Ok(None);
    }
    let mut needs = Needs {
        types,
        scope: Items::new(alloc),
        needed: Items::new(alloc),
    };
    let may = needs.of_items(constructor.items.as_slice())?;
    if may {
        Ok(Some(needs.needed))
    } else {
        Ok(None)
    }
}

// Adds the rule by which the constructor's type may take nothing.
fn add_rule<'a>(
    alloc: Global,
    types: &Types<'a>,
    constructor: &'a Constructor,
    rules: &mut Items<Rule>,
) -> Result<(), NoMemory>
    ensures { OnOk result (AddsRule (views types.now) (constructor_view constructor.now) rules.old rules.new) }
{
    let Some(body) = needs_of(alloc, types, constructor)? else {
        return Ok(());
    };
    let Some(head) = types.place(&constructor.result) else {
        return Ok(());
    };
    rules.push(Rule { head, body })?;
    Ok(())
}

/// The declared types that may take nothing.
pub fn empty_types<'a>(alloc: Global, types: &Types<'a>) -> Result<Items<bool>, NoMemory>
    ensures size { IfOk result (λ found. length found ≡ length types.now) }
    ensures types { IfOk result (λ found. (x : List ℕ) → types_in (views types.now) (holds found) x ≡ may_take_nothing (views types.now) x) }
{
    let constructors = types.constructors();
    let mut rules: Items<Rule> = Items::new(alloc);
    for constructor in constructors {
        add_rule(alloc, types, constructor, &mut rules)?;
    }
    least(alloc, constructors.len(), rules.as_slice())
}
