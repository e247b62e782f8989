//! What an item of a constructor sees.
ghost use Rattle.std.specs.Prelude.{◌≡◌, ◌&&◌, not, [], drop, option_map};
ghost use Rattle.std.specs.List.{list_any};
ghost use Rattle.tlb_syntax.specs.View.{expr, exprs};
ghost use Rattle.kind_terms.specs.Forms.{parts_of_all};
ghost use Rattle.kind_terms.specs.Params.{bare_name as bare_name_of};
ghost use Rattle.kind_terms.specs.Scopes.{in_scope, is_implicit_number};
ghost use Rattle.kind_terms.specs.Scopes as scopes_spec;
ghost use Rattle.kind_terms.specs.Types.{type_named};
ghost use Rattle.kind_terms.specs.Views.{named_by};
ghost use Rattle.kind_rules.specs.ExpectedKinds.{as_type, meaning_by};
ghost use Rattle.kind_rules.specs.NameLaws.{type_unless};
ghost use Rattle.kind_rules.specs.Numbers.{is_variable_in, holds_variable as holds_variable_in};
ghost use Rattle.kind_declarations.specs.Views.{scope_by};

use bit_slice::Name;
use kind_terms::{Binding, Meaning, Shown, TypeNamed, Types, bare_name, is_among, meaning_in};
use sqlite_items::Items;
use std::alloc::Global;
use tlb_syntax::Expr;

/// What an item of a constructor sees, and the path to it.
#[derive(Drop)]
pub struct Scope<'a, 't> {
    pub alloc: Global,
    pub types: &'t Types<'a>,
    pub path: Items<Shown<'a>>,
    /// The names in scope, those of the records around first.
    pub bindings: Items<Binding<'a>>,
    /// How many of them are of the records around.
    pub around: usize,
    /// The inputs that belong to the record: those of a constructor belong to no record in it.
    pub inputs: &'t [&'a Name],
    /// The variables in scope that are known.
    pub known: Items<&'a Name>,
    /// The fields so far of the record and of those around it.
    pub fields: Items<&'a Name>,
}

fn is_implicit(meaning: Option<Meaning>) -> bool
    ensures { result ≡ is_implicit_number meaning }
{
    matches!(meaning, Some(Meaning::ImplicitNumber))
}

impl<'a, 't> Scope<'a, 't> {
    /// The first item of a constructor with these inputs.
    pub fn new(alloc: Global, types: &'t Types<'a>, inputs: &'t [&'a Name]) -> Scope<'a, 't>
        ensures { result
            ≡ record {
              alloc = alloc;
              types = types.entry;
              path = [];
              bindings = [];
              around = 0;
              inputs = inputs.entry;
              known = [];
              fields = [];
            } }
    {
        Scope {
            alloc,
            types,
            path: Items::new(alloc),
            bindings: Items::new(alloc),
            around: 0,
            inputs,
            known: Items::new(alloc),
            fields: Items::new(alloc),
        }
    }

    /// What a name stands for, if it is in scope.
    #[tactic(auto, using(crate::proofs::ScopeViews::meaning_of_seen))]
    pub fn meaning_of(&self, name: &Name) -> Option<Meaning>
        ensures { result ≡ scopes_spec.meaning_of (scope_by self.now) name.now }
    {
        meaning_in(self.bindings.as_slice(), name)
    }

    #[tactic(auto, unfolding(crate::specs::Views::scope_of))]
    pub fn is_known(&self, name: &Name) -> bool
        ensures { result ≡ scopes_spec.is_known (scope_by self.now) name.now }
    {
        is_among(self.known.as_slice(), name)
    }

    // The names in scope of the record itself.
    fn own(&self) -> &[Binding<'a>]
        ensures { result.now ≡ drop self.now.around self.now.bindings }
    {
        let bindings = self.bindings.as_slice();
        if self.around <= bindings.len() {
            &bindings[self.around..]
        } else {
            &[]
        }
    }

    /// Whether the name is an implicit number of the same record that is not known.
    #[tactic(auto, using(crate::proofs::ScopeViews::own_seen))]
    pub fn is_own_unknown(&self, name: &Name) -> bool
        ensures { result ≡ scopes_spec.is_own_unknown (scope_by self.now) name.now }
    {
        is_implicit(meaning_in(self.own(), name)) && !self.is_known(name)
    }

    /// What a name without arguments stands for, if it is in scope.
    pub fn meaning_at(&self, e: &Expr) -> Option<Meaning>
        ensures { result ≡ meaning_by (scope_by self.now) (bare_name_of (expr e.now)) }
    {
        match bare_name(e) {
            None => None,
            Some(name) => self.meaning_of(name),
        }
    }

    // The type that a name is used as, with arguments or without.
    #[tactic(auto, using(crate::proofs::ScopeViews::types_seen))]
    fn type_named(&self, name: &Name, has_arguments: bool) -> Option<TypeNamed<'t>>
        ensures { option_map named_by result
            ≡ type_unless (not has_arguments && in_scope (scope_by self.now) name.now)
            (type_named (scope_by self.now).types name.now has_arguments) }
    {
        if !has_arguments && self.meaning_of(name).is_some() {
            return None;
        }
        Some(self.types.named(name.text(), has_arguments))
    }

    /// The type that a name is used as, unless it stands alone and is in scope.
    pub fn type_of(&self, e: &Expr) -> Option<TypeNamed<'t>>
        ensures { option_map named_by result ≡ as_type (scope_by self.now) (expr e.now) }
    {
        match e {
            Expr::Named(name, args) => self.type_named(name, !args.is_empty()),
            Expr::Sum(_, _, _) => None,
            _ => None,
        }
    }

    // Whether it is a number variable in scope.
    fn is_variable(&self, e: &Expr) -> bool
        ensures { result ≡ is_variable_in (scope_by self.now) (expr e.now) }
    {
        match self.meaning_at(e) {
            None => false,
            Some(meaning) => meaning.is_number(),
        }
    }

    /// Whether a number variable in scope stands in the expression.
    #[cycle(holds)]
    pub fn holds_variable(&self, e: &Expr) -> bool
        ensures { result ≡ holds_variable_in (scope_by self.now) (expr e.now) }
    {
        match e {
            Expr::Lit(_) | Expr::Nat32 | Expr::Group(_) => false,
            Expr::Named(_, args) => self.is_variable(e) || self.hold_variable(args.as_slice()),
            Expr::Bits(args) | Expr::Below(args) | Expr::UpTo(args) => self.hold_variable(
                args.as_slice(),
            ),
            Expr::Sum(first, second, more) => {
                self.holds_variable(first.get())
                    || self.holds_variable(second.get())
                    || self.hold_variable(more.as_slice())
            }
            Expr::Star(left, right) => self.holds_variable(left.get())
                || self.holds_variable(right.get()),
            Expr::Out(inner) | Expr::Ref(inner) => self.holds_variable(inner.get()),
        }
    }

    #[cycle(holds)]
    fn hold_variable(&self, es: &[Expr]) -> bool
        ensures { result ≡ list_any (is_variable_in (scope_by self.now)) (parts_of_all (exprs es.now)) }
    {
        for e in es {
            if self.holds_variable(e) {
                return true;
            }
        }
        false
    }
}
