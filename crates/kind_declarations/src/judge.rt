//! The items of a constructor, judged in the order of the text.
ghost use Rattle.std.specs.Prelude.{◌≡◌, ◌∷◌, [], ◌++◌, ◌≤◌, Some, length, map, OnOk};
ghost use Rattle.tlb_syntax.specs.Limits.{AreExprs, AreItems, IsExpr, IsItem, IsType, item_count};
ghost use Rattle.tlb_syntax.specs.View.{expr, exprs, field_type, item as item_view, items};
ghost use Rattle.kind_terms.specs.Scopes.{at_end, after, declares as declares_of, given_out};
ghost use Rattle.kind_terms.specs.Types.{parameters, type_named};
ghost use Rattle.kind_terms.specs.Views.{binding_of, named_by};
ghost use Rattle.kind_terms.specs.Words.{is_among as is_word_among};
ghost use Rattle.kind_rules.specs.ExpectedKinds.{a_type};
ghost use Rattle.kind_declarations.specs.Faults.{Judges};
ghost use Rattle.kind_rules.specs.declared.expected.TypePosition.TheVariants.{Conditional};
ghost use Rattle.kind_declarations.specs.Nodes.{arg_nodes, at, expr_nodes, first_inside, item_nodes, expected_argument};
ghost use Rattle.kind_declarations.specs.Nodes.{name_at, next, expected_number, record_nodes, type_nodes, use_at};
ghost use Rattle.kind_declarations.specs.Parts.{part_nodes};
ghost use Rattle.kind_declarations.specs.Views.{Follows, HasNamed, item_context, after_name, first_by, record_context};
ghost use Rattle.kind_declarations.specs.Views.{path_by, scope_by, words};

use crate::error::{Cause, Fault};
use crate::row::{Row, keep_first};
use crate::scope::Scope;
use bit_slice::Name;
use kind_rules::{Expected, TypePosition};
use kind_terms::{
    Binding, GREATEST, Sort, TermKind, TypeNamed, add_known, declares, is_among, out_name,
    show_item, sought,
};
use sqlite_items::Items;
use std::alloc::AllocError;
use tlb_syntax::{Expr, FieldType, Item};

const OF_HASH_HASH: &[TermKind] = &[TermKind::NumberIn(32)];

const OF_HASH_LESS: &[TermKind] = &[TermKind::NumberIn(GREATEST)];

const OF_NOTHING: &[TermKind] = &[];

fn kinds_of(named: TypeNamed<'_>) -> &[TermKind]
    ensures { result.now ≡ parameters (named_by named.entry) }
{
    match named.sort {
        Sort::NoType => OF_NOTHING,
        Sort::Basic | Sort::Declared => named.kinds,
    }
}

// The inputs that belong to a record inside.
fn no_inputs<'t, 'a>() -> &'t [&'a Name]
    ensures { result.now ≡ [] }
{
    &[]
}

impl<'a, 't> Scope<'a, 't> {
    // The parameters of the type that a name is, with arguments or without.
    #[tactic(auto, using(crate::proofs::ScopeViews::types_seen))]
    fn parameters_of(&self, name: &Name, has_arguments: bool) -> &'t [TermKind]
        ensures { result.now ≡ parameters (type_named (scope_by self.now).types name.now has_arguments) }
    {
        let types = self.types;
        kinds_of(types.named(name.text(), has_arguments))
    }

    // A type by itself, without its parts.
    fn judge_type_alone(&self, e: &Expr, position: TypePosition) -> Result<(), Fault>
        ensures { Judges (use_at (item_context self.now) (Some (a_type position)) (expr e.now)) (path_by self.now)
            result }
    {
        self.judge_use(e, Expected::type_at(position))
    }

    #[tactic(auto, using(crate::proofs::FieldNodes::among_both))]
    fn is_taken(&self, name: &Name, inside: &[&Name]) -> bool
        ensures { result ≡ is_word_among (words self.now.fields ++ words inside.now) name.now }
    {
        is_among(self.fields.as_slice(), name) || is_among(inside, name)
    }

    // The name of a field, after records with these names of fields.
    fn judge_name(&mut self, name: &'a Name, inside: &[&Name]) -> Result<(), Fault>
        ensures judged { Judges (name_at (path_by self.old) (words self.old.fields ++ words inside.now) (Some name.now))
            (path_by self.new) result }
        ensures added { OnOk result (self.new ≡ record self.old { fields = self.old.fields ++ name.entry ∷ [] }) }
    {
        if self.is_taken(name, inside) {
            return Err(Fault::Refused(Cause::TwiceNamed));
        }
        self.fields.push(name)?;
        Ok(())
    }

    /// An expression where a type is expected.
    #[cycle(item)]
    pub fn judge_type(&mut self, e: &'a Expr, position: TypePosition) -> Result<(), Fault>
        requires { IsExpr (expr e.now) }
        ensures judged { Judges (expr_nodes (expr e.now) (item_context self.old) (Some (a_type position)))
            (path_by self.new) result }
        ensures kept { OnOk result (self.new ≡ self.old) }
    {
        self.judge_type_alone(e, position)?;
        self.judge_parts(e, position)
    }

    #[cycle(item)]
    fn judge_parts(&mut self, e: &'a Expr, position: TypePosition) -> Result<(), Fault>
        requires { IsExpr (expr e.now) }
        ensures judged { Judges (part_nodes (expr e.now) (item_context self.old) position) (path_by self.new) result }
        ensures kept { OnOk result (self.new ≡ self.old) }
    {
        match e {
            Expr::Lit(_) | Expr::Nat32 | Expr::Out(_) => Ok(()),
            Expr::Sum(_, _, _) => Ok(()),
            Expr::Named(name, args) => {
                let kinds = self.parameters_of(name, !args.is_empty());
                self.judge_args(args.as_slice(), kinds)
            }
            Expr::Bits(args) => self.judge_args(args.as_slice(), OF_HASH_HASH),
            Expr::Below(args) | Expr::UpTo(args) => self.judge_args(args.as_slice(), OF_HASH_LESS),
            Expr::Star(count, repeated) => {
                self.judge_number(count.get(), GREATEST, None)?;
                self.judge_type(repeated.get(), TypePosition::Inner)
            }
            Expr::Ref(inner) => self.judge_type(inner.get(), position.under()),
            Expr::Group(list) => self.judge_inner(list.as_slice()),
        }
    }

    // The arguments of a type with these parameters.
    #[cycle(item)]
    fn judge_args(&mut self, args: &'a [Expr], kinds: &[TermKind]) -> Result<(), Fault>
        requires { AreExprs (exprs args.now) }
        ensures judged { Judges (arg_nodes (exprs args.now) (item_context self.old) kinds.now []) (path_by self.new)
            result }
        ensures kept { OnOk result (self.new ≡ self.old) }
    {
        let mut given = Items::new(self.alloc);
        for (at, arg) in args.iter().enumerate() {
            if at >= kinds.len() {
                return Ok(());
            }
            self.judge_arg(arg, kinds[at], given.as_slice())?;
            add_given(kinds[at], arg, &mut given)?;
        }
        Ok(())
    }

    // An argument at the place of such a parameter, after these outputs.
    #[cycle(item)]
    fn judge_arg(&mut self, arg: &'a Expr, kind: TermKind, given: &[&Name]) -> Result<(), Fault>
        requires { IsExpr (expr arg.now) }
        ensures judged { Judges
            (expr_nodes (expr arg.now) (item_context self.old) (expected_argument kind (words given.now)))
            (path_by self.new) result }
        ensures kept { OnOk result (self.new ≡ self.old) }
    {
        match kind {
            TermKind::NumberIn(most) => self.judge_number(arg, most, None),
            TermKind::TypeIn => self.judge_type(arg, TypePosition::Inner),
            TermKind::NumberOut => self.judge_output(arg, given),
            TermKind::NoKind => Ok(()),
        }
    }

    #[cycle(item)]
    fn judge_field_type(&mut self, t: &'a FieldType) -> Result<(), Fault>
        requires { IsType (field_type t.now) }
        ensures judged { Judges (type_nodes (field_type t.now) (item_context self.old)) (path_by self.new) result }
        ensures kept { OnOk result (self.new ≡ self.old) }
    {
        match t {
            FieldType::Plain(e) => self.judge_type(e, TypePosition::Whole),
            FieldType::If(condition, e) => self.judge_conditional(e, condition),
            FieldType::IfBit(condition, _, e) => self.judge_conditional(e, condition),
        }
    }

    #[cycle(item)]
    fn judge_conditional(&mut self, e: &'a Expr, condition: &Expr) -> Result<(), Fault>
        requires { IsExpr (expr e.now) }
        ensures judged { Judges
            (expr_nodes (expr condition.now) (item_context self.old) expected_number
            ++ expr_nodes (expr e.now) (item_context self.old) (Some (a_type Conditional))) (path_by self.new) result }
        ensures kept { OnOk result (self.new ≡ self.old) }
    {
        self.judge_number(condition, GREATEST, None)?;
        self.judge_type(e, TypePosition::Conditional)
    }

    // The item to which the path leads, after records with these names of fields.
    #[cycle(item)]
    fn judge_item(&mut self, item: &'a Item, inside: &[&Name]) -> Result<(), Fault>
        requires { IsItem (item_view item.now) }
        ensures judged { Judges
            (item_nodes (item_view item.now) (after_name self.old (item_view item.now))
            (words self.old.fields ++ words inside.now)) (path_by self.new) result }
        ensures kept { OnOk result (HasNamed self.old self.new (item_view item.now)) }
    {
        match item {
            Item::Implicit(name, _) => self.judge_name(name, inside),
            Item::Check(left, op, right) => {
                let unknown = sought(left, *op, right);
                self.judge_number(left, GREATEST, unknown)?;
                self.judge_number(right, GREATEST, unknown)
            }
            Item::Explicit(name, t) => match name {
                None => self.judge_field_type(t),
                Some(known) => {
                    self.judge_name(known, inside)?;
                    self.judge_field_type(t)
                }
            },
        }
    }

    // An item in its place, which is in scope after itself.
    #[cycle(item)]
    fn judge_next(&mut self, item: &'a Item, row: &mut Row<'a>) -> Result<(), Fault>
        requires around { self.old.around ≤ length self.old.bindings }
        requires limits { IsItem (item_view item.now) }
        requires place { row.old.place ≤ 255 }
        requires unnamed { row.old.unnamed ≤ 255 }
        ensures judged { Judges
            (item_nodes (item_view item.now) (at (record_context self.old row.old) (item_view item.now))
            (words self.old.fields ++ words row.old.inside)) (path_by self.new) result }
        ensures follows { OnOk result (Follows self.old self.new) }
        ensures next { OnOk result
            (record_context self.new row.new ≡ next (record_context self.old row.old) (item_view item.now)) }
    {
        self.path.push(show_item(item, row.place, row.unnamed))?;
        self.judge_item(item, row.inside.as_slice())?;
        self.path.pop();
        self.declare(item)?;
        row.step(item)?;
        Ok(())
    }

    // What an item brings into scope, and what it makes known.
    fn declare(&mut self, item: &'a Item) -> Result<(), AllocError>
        requires { self.old.around ≤ length self.old.bindings }
        ensures follows { OnOk result (Follows self.old self.new) }
        ensures fields { OnOk result (self.new.fields ≡ self.old.fields) }
        ensures scope { OnOk result (scope_by self.new ≡ after (scope_by self.old) (item_view item.now)) }
    {
        add_binding(item, &mut self.bindings)?;
        add_known(self.types, self.inputs, item, &mut self.known)?;
        Ok(())
    }

    /// The items of a record.
    #[cycle(item)]
    pub fn judge_items(&mut self, list: &'a [Item]) -> Result<(), Fault>
        requires around { self.old.around ≤ length self.old.bindings }
        requires bounded { item_count (items list.now) ≤ 255 }
        requires limits { AreItems (items list.now) }
        ensures judged { Judges (record_nodes (items list.now) (first_by self.old)) (path_by self.new) result }
        ensures follows { OnOk result (Follows self.old self.new) }
        ensures scope { OnOk result (scope_by self.new ≡ at_end (scope_by self.old) (items list.now)) }
    {
        let mut row = Row::new(self.alloc);
        for item in list {
            self.judge_next(item, &mut row)?;
        }
        Ok(())
    }

    // A record inside, whose names end with it.
    #[cycle(item)]
    fn judge_inner(&mut self, list: &'a [Item]) -> Result<(), Fault>
        requires bounded { item_count (items list.now) ≤ 255 }
        requires limits { AreItems (items list.now) }
        ensures judged { Judges (record_nodes (items list.now) (first_inside (item_context self.old)))
            (path_by self.new) result }
        ensures kept { OnOk result (self.new ≡ self.old) }
    {
        let around = self.around;
        let inputs = self.inputs;
        let bindings = self.bindings.len();
        let known = self.known.len();
        let fields = self.fields.len();
        self.around = bindings;
        self.inputs = no_inputs();
        self.judge_items(list)?;
        self.around = around;
        self.inputs = inputs;
        keep_first(&mut self.bindings, bindings);
        keep_first(&mut self.known, known);
        keep_first(&mut self.fields, fields);
        Ok(())
    }
}

// Adds what an item brings into scope.
fn add_binding<'a>(item: &'a Item, bindings: &mut Items<Binding<'a>>) -> Result<(), AllocError>
    ensures { OnOk result
        ((added : _) × (bindings.new ≡ bindings.old ++ added)
        × (map binding_of added ≡ declares_of (item_view item.now))) }
{
    match declares(item) {
        None => Ok(()),
        Some(binding) => bindings.push(binding),
    }
}

// Adds the x of an argument `~x` at an output place.
fn add_given<'a>(
    kind: TermKind,
    arg: &'a Expr,
    given: &mut Items<&'a Name>,
) -> Result<(), AllocError>
    ensures { OnOk result (words given.new ≡ words given.old ++ given_out kind (expr arg.now)) }
{
    match kind {
        TermKind::NumberOut => match out_name(arg) {
            None => Ok(()),
            Some(name) => given.push(name),
        },
        TermKind::NumberIn(_) | TermKind::TypeIn | TermKind::NoKind => Ok(()),
    }
}
