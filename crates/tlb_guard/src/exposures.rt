//! What stands first in a type.
ghost use Rattle.std.specs.Prelude.{◌≡◌, ℕ, ◌*◌, ◌<◌, ◌++◌, Bool, [], ◌∷◌, length, map, All, OnOk, IfOk};
ghost use Rattle.tlb_syntax.specs.Tree.{named};
ghost use Rattle.tlb_syntax.specs.View.{expr, exprs, item, items, constructor as constructor_view};
ghost use Rattle.tlb_guard.specs.declared.exposures.ExposedTerm.TheVariants.{Declared};
ghost use Rattle.tlb_guard.specs.Facts.{holds};
ghost use Rattle.tlb_guard.specs.Numbering.{types_in, views, width, word_at};
ghost use Rattle.tlb_guard.specs.Scoping.{IsScopePrefix, names};
ghost use Rattle.tlb_guard.specs.Views.{Exposes, ExposesThrough, IsEmpty, IsNumber, IsWithin, KeepsExposures, exposed_in, term_by, knowing};
ghost use Rattle.tlb_guard.specs.Empty.{may_be_empty, may_be_empty_item, may_be_empty_items, may_be_empty_type};
ghost use Rattle.tlb_guard.specs.Exposed.{terms_of_arguments, exposed_by, exposed_from, terms_of, terms_of_item, terms_of_items};

use crate::rules::is_found;
use crate::scope::{enter, is_at_least, is_variable, leave, may_built_in_be_empty};
use crate::types::{Types, has_empty_tag};
use bit_slice::Name;
use sqlite_items::Items;
use std::alloc::Global;
use tlb_memory::NoMemory;
use tlb_syntax::{Constructor, Expr, FieldType, Item};

/// A declared type by its number, or a variable.
#[derive(Clone, Copy)]
pub enum ExposedTerm<'a> {
    Declared(usize),
    Variable(&'a Name),
}

/// What the item of a constructor exposes, where all of these parameters are exposed.
#[derive(Drop)]
pub struct Exposure<'a> {
    pub item: usize,
    pub term: ExposedTerm<'a>,
    pub through: Items<usize>,
}

/// Gathers what a constructor exposes.
#[derive(Drop)]
struct Exposures<'s, 'a> {
    alloc: Global,
    types: &'s Types<'a>,
    /// The types that may take nothing.
    empty: &'s [bool],
    item: usize,
    scope: Items<&'a Name>,
    /// The parameters at whose places the expression stands.
    through: Items<usize>,
    exposures: Items<Exposure<'a>>,
}

// Whether a named type may take nothing.
fn may_be_empty_named(types: &Types<'_>, empty: &[bool], name: &Name, args: &[Expr]) -> bool
    ensures { result ≡ may_be_empty_type (types_in (views types.now) (holds empty.now)) name.now (exprs args.now) }
{
    match may_built_in_be_empty(name, args) {
        Some(may) => may,
        None => match types.place(name) {
            None => false,
            Some(number) => is_found(empty, number),
        },
    }
}

impl<'s, 'a> Exposures<'s, 'a> {
    fn push(&mut self, term: ExposedTerm<'a>) -> Result<(), NoMemory>
        requires { IsNumber (views self.old.types.now) term }
        ensures kept { OnOk result (KeepsExposures self.old self.new) }
        ensures scope { OnOk result (self.new.scope ≡ self.old.scope) }
        ensures exposures { OnOk result (Exposes (λ k scope. term_by (views self.old.types.now) term.entry ∷ []) self.old self.new) }
    {
        let through = Items::from_slice(self.alloc, self.through.as_slice())?;
        self.exposures.push(Exposure {
            item: self.item,
            term,
            through,
        })?;
        Ok(())
    }

    // Gathers what the expression exposes, and says whether it may take nothing.
    #[cycle(exposures)]
    fn of_expr(&mut self, e: &'a Expr) -> Result<bool, NoMemory>
        ensures kept { OnOk result (KeepsExposures self.old self.new) }
        ensures scope { OnOk result (self.new.scope ≡ self.old.scope) }
        ensures exposures { OnOk result (Exposes (λ k scope. terms_of k scope (expr e.now)) self.old self.new) }
        ensures empty { IfOk result (IsEmpty (λ q scope. may_be_empty q scope (expr e.now)) self.old) }
    {
        match e {
            Expr::Named(name, args) => self.of_name(name, args.as_slice()),
            Expr::Nat32 | Expr::Ref(_) => Ok(false),
            Expr::Bits(args) | Expr::UpTo(args) => Ok(!is_at_least(1, args.as_slice())),
            Expr::Below(args) => Ok(!is_at_least(2, args.as_slice())),
            Expr::Group(list) => self.of_group(list.as_slice()),
            Expr::Star(_, repeated) => {
                self.of_expr(repeated.get())?;
                Ok(true)
            }
            Expr::Sum(_, _, _) => Ok(true),
            Expr::Lit(_) | Expr::Out(_) => Ok(true),
        }
    }

    #[cycle(exposures)]
    fn of_name(&mut self, name: &'a Name, args: &'a [Expr]) -> Result<bool, NoMemory>
        ensures kept { OnOk result (KeepsExposures self.old self.new) }
        ensures scope { OnOk result (self.new.scope ≡ self.old.scope) }
        ensures exposures { OnOk result (Exposes (λ k scope. terms_of k scope (named name.now (exprs args.now))) self.old self.new) }
        ensures empty { IfOk result (IsEmpty (λ q scope. may_be_empty q scope (named name.now (exprs args.now))) self.old) }
    {
        if is_variable(self.scope.as_slice(), name, args) {
            self.push(ExposedTerm::Variable(name))?;
            return Ok(true);
        }
        if let Some(number) = self.types.number(name) {
            self.push(ExposedTerm::Declared(number))?;
            self.of_args(number, args)?;
        }
        Ok(may_be_empty_named(self.types, self.empty, name, args))
    }

    // The arguments of a type.
    #[cycle(exposures)]
    fn of_args(&mut self, of: usize, args: &'a [Expr]) -> Result<(), NoMemory>
        requires { IsNumber (views self.old.types.now) (Declared of) }
        ensures kept { OnOk result (KeepsExposures self.old self.new) }
        ensures scope { OnOk result (self.new.scope ≡ self.old.scope) }
        ensures exposures { OnOk result (Exposes (λ k scope. terms_of_arguments k scope (word_at (views self.old.types.now) of) 0 (exprs args.now)) self.old self.new) }
    {
        for (place, e) in args.iter().enumerate() {
            if let Some(parameter) = self.types.parameter(of, place)? {
                self.of_arg(parameter, e)?;
            }
        }
        Ok(())
    }

    // The argument at the place of the parameter.
    #[cycle(exposures)]
    fn of_arg(&mut self, parameter: usize, e: &'a Expr) -> Result<(), NoMemory>
        ensures kept { OnOk result (parameter < length self.old.types.now * width (views self.old.types.now) → KeepsExposures self.old self.new) }
        ensures scope { OnOk result (self.new.scope ≡ self.old.scope) }
        ensures exposures { OnOk result (ExposesThrough self.old.types.now self.old.empty.now (self.old.through ++ parameter ∷ []) self.old.item (λ k scope. terms_of k scope (expr e.now)) self.old self.new) }
    {
        self.through.push(parameter)?;
        self.of_expr(e)?;
        self.through.pop();
        Ok(())
    }

    #[cycle(exposures)]
    fn of_group(&mut self, list: &'a [Item]) -> Result<bool, NoMemory>
        ensures kept { OnOk result (KeepsExposures self.old self.new) }
        ensures scope { OnOk result (self.new.scope ≡ self.old.scope) }
        ensures exposures { OnOk result (Exposes (λ k scope. terms_of_items k scope (items list.now)) self.old self.new) }
        ensures empty { IfOk result (IsEmpty (λ q scope. may_be_empty_items q scope (items list.now)) self.old) }
    {
        let around = self.scope.len();
        let may = self.of_items(list)?;
        leave(&mut self.scope, around);
        Ok(may)
    }

    #[cycle(exposures)]
    fn of_items(&mut self, list: &'a [Item]) -> Result<bool, NoMemory>
        ensures kept { OnOk result (KeepsExposures self.old self.new) }
        ensures scope { OnOk result (IsScopePrefix self.old.scope self.new.scope) }
        ensures exposures { OnOk result (Exposes (λ k scope. terms_of_items k scope (items list.now)) self.old self.new) }
        ensures empty { IfOk result (IsEmpty (λ q scope. may_be_empty_items q scope (items list.now)) self.old) }
    {
        for i in list {
            if !self.of_item(i)? {
                return Ok(false);
            }
            enter(&mut self.scope, i)?;
        }
        Ok(true)
    }

    #[cycle(exposures)]
    fn of_item(&mut self, i: &'a Item) -> Result<bool, NoMemory>
        ensures kept { OnOk result (KeepsExposures self.old self.new) }
        ensures scope { OnOk result (self.new.scope ≡ self.old.scope) }
        ensures exposures { OnOk result (Exposes (λ k scope. terms_of_item k scope (item i.now)) self.old self.new) }
        ensures empty { IfOk result (IsEmpty (λ q scope. may_be_empty_item q scope (item i.now)) self.old) }
    {
        match i {
            Item::Explicit(_, FieldType::Plain(e)) => self.of_expr(e),
            Item::Explicit(_, FieldType::If(_, e)) | Item::Explicit(_, FieldType::IfBit(_, _, e)) =>
                {
                    self.of_expr(e)?;
                    Ok(true)
                }
            _ => Ok(true),
        }
    }

    // The items of a constructor, up to and with the first that may not take nothing.
    fn of_constructor(&mut self, list: &'a [Item]) -> Result<(), NoMemory>
        requires through { self.old.through ≡ [] }
        requires exposures { self.old.exposures ≡ [] }
        ensures within { OnOk result (All (IsWithin (views self.old.types.now)) self.new.exposures) }
        ensures exposures { OnOk result ((t : ℕ → Bool) → exposed_in (views self.old.types.now) t self.new.exposures ≡ exposed_from (knowing (views self.old.types.now) self.old.empty.now t) (names self.old.scope) 0 (items list.now)) }
    {
        for (place, i) in list.iter().enumerate() {
            self.item = place;
            if !self.of_item(i)? {
                return Ok(());
            }
            enter(&mut self.scope, i)?;
        }
        Ok(())
    }
}

// What the constructor exposes, in the order of the text.
fn exposures_by<'a>(
    alloc: Global,
    types: &Types<'a>,
    empty: &[bool],
    constructor: &'a Constructor,
) -> Result<Items<Exposure<'a>>, NoMemory>
    ensures exposed { IfOk result (λ exposures. (t : ℕ → Bool) → exposed_in (views types.now) t exposures ≡ exposed_by (knowing (views types.now) empty.now t) (constructor_view constructor.now)) }
    ensures within { IfOk result (All (IsWithin (views types.now))) }
{
    let mut exposures = Exposures {
        alloc,
        types,
        empty,
        item: 0,
        scope: Items::new(alloc),
        through: Items::new(alloc),
        exposures: Items::new(alloc),
    };
    if has_empty_tag(constructor) {
        exposures.of_constructor(constructor.items.as_slice())?;
    }
    Ok(exposures.exposures)
}

/// For each constructor what it exposes, in the order of the text.
pub fn exposures_of<'a>(
    alloc: Global,
    types: &Types<'a>,
    empty: &[bool],
) -> Result<Items<Items<Exposure<'a>>>, NoMemory>
    ensures exposed { IfOk result (λ exposures. (t : ℕ → Bool) → map (exposed_in (views types.now) t) exposures ≡ map (exposed_by (knowing (views types.now) empty.now t)) (views types.now)) }
    ensures within { IfOk result (All (All (IsWithin (views types.now)))) }
{
    let mut exposures = Items::new(alloc);
    for constructor in types.constructors() {
        exposures.push(exposures_by(alloc, types, empty, constructor)?)?;
    }
    Ok(exposures)
}
