//! What is at fault in the expression of a type word.
ghost use Rattle.std.specs.Prelude.{◌≡◌, None, option_map, slice_index_or};
ghost use Rattle.tlb_syntax.specs.View.{expr, exprs};
ghost use Rattle.kind_terms.specs.declared.kind.TermKind.TheVariants as kinds_spec;
ghost use Rattle.kind_terms.specs.Views.{named_by};
ghost use Rattle.type_index.specs.Index.{kinds_at};
ghost use Rattle.type_closing.specs.Faults.{argument_fault as argument_fault_in, arguments_fault as arguments_fault_in};
ghost use Rattle.type_closing.specs.Faults.{name_fault as name_fault_in, number_fault as number_fault_in};
ghost use Rattle.type_closing.specs.Faults.{number_name_fault as number_name_fault_in, type_fault as type_fault_in};
ghost use Rattle.type_closing.specs.Faults.{wide_fault as wide_fault_in};
ghost use Rattle.type_closing.specs.Views.{fault_by, name_by};

use crate::named::type_called;
use bit_slice::Name;
use kind_terms::{GREATEST, Sort, TermKind, TypeNamed, has_outputs, is_wide};
use tlb_syntax::Expr;
use type_index::TypeIndex;

/// What is at fault in a type word, with the names that stand there.
#[derive(Clone, Copy)]
pub enum Fault<'a> {
    UnknownType(&'a Name),
    Arity(&'a Name),
    Output(&'a Name),
    KindMismatch(Option<&'a Name>),
    TooWide,
}

const NUMBER_OF_BITS: &[TermKind] = &[TermKind::NumberIn(32)];

const A_NUMBER: &[TermKind] = &[TermKind::NumberIn(GREATEST)];

fn wide_fault<'a>(name: &[u8]) -> Option<Fault<'a>>
    ensures { option_map fault_by result ≡ wide_fault_in name.now }
{
    if is_wide(name) {
        Some(Fault::TooWide)
    } else {
        None
    }
}

// Of a name with so many arguments where a type is due.
fn name_fault<'a>(named: TypeNamed<'_>, name: &'a Name, args: usize) -> Option<Fault<'a>>
    ensures { option_map fault_by result ≡ name_fault_in (named_by named.entry) name.now args }
{
    match named.sort {
        Sort::NoType => Some(Fault::UnknownType(name)),
        Sort::Declared => {
            if args != named.kinds.len() {
                Some(Fault::Arity(name))
            } else if has_outputs(named.kinds) {
                Some(Fault::Output(name))
            } else {
                None
            }
        }
        Sort::Basic => {
            if args != named.kinds.len() {
                Some(Fault::KindMismatch(Some(name)))
            } else {
                wide_fault(name.text())
            }
        }
    }
}

// And where a number is due, in the arguments of the holder.
fn number_name_fault<'a>(
    holder: Option<&'a Name>,
    named: TypeNamed<'_>,
    name: &'a Name,
    args: usize,
) -> Fault<'a>
    ensures { fault_by result ≡ number_name_fault_in (name_by holder.entry) (named_by named.entry) name.now args }
{
    match named.sort {
        Sort::NoType => Fault::UnknownType(name),
        Sort::Declared => {
            if args != named.kinds.len() {
                Fault::Arity(name)
            } else if has_outputs(named.kinds) {
                Fault::Output(name)
            } else {
                Fault::KindMismatch(holder)
            }
        }
        Sort::Basic => {
            if args != named.kinds.len() {
                Fault::KindMismatch(Some(name))
            } else {
                Fault::KindMismatch(holder)
            }
        }
    }
}

// Where a number is due, which is at most so much.
fn number_fault<'a>(
    types: &TypeIndex,
    holder: Option<&'a Name>,
    most: u32,
    e: &'a Expr,
) -> Option<Fault<'a>>
    ensures { option_map fault_by result
        ≡ number_fault_in (kinds_at types.now) (name_by holder.entry) most (expr e.now) }
{
    match e {
        Expr::Lit(number) => {
            if *number > most {
                Some(Fault::TooWide)
            } else {
                None
            }
        }
        Expr::Named(name, args) => {
            let named = type_called(types, name.text());
            Some(number_name_fault(holder, named, name, args.len()))
        }
        Expr::Sum(_, _, _) => Some(Fault::KindMismatch(holder)),
        Expr::Nat32
        | Expr::Bits(_)
        | Expr::Below(_)
        | Expr::UpTo(_)
        | Expr::Star(_, _)
        | Expr::Out(_)
        | Expr::Ref(_)
        | Expr::Group(_) => Some(Fault::KindMismatch(holder)),
    }
}

// Where a type is due, in the arguments of the holder.
#[cycle(fault)]
fn type_fault<'a>(types: &TypeIndex, holder: Option<&'a Name>, e: &'a Expr) -> Option<Fault<'a>>
    ensures { option_map fault_by result
        ≡ type_fault_in (kinds_at types.now) (name_by holder.entry) (expr e.now) }
{
    match e {
        Expr::Nat32 => None,
        Expr::Bits(args) => arguments_fault(types, None, NUMBER_OF_BITS, args.as_slice()),
        Expr::Below(args) | Expr::UpTo(args) => {
            arguments_fault(types, None, A_NUMBER, args.as_slice())
        }
        Expr::Star(count, repeated) => {
            let fault = number_fault(types, None, GREATEST, count.get());
            if fault.is_some() {
                return fault;
            }
            type_fault(types, None, repeated.get())
        }
        Expr::Ref(inner) => type_fault(types, None, inner.get()),
        Expr::Named(name, args) => {
            let named = type_called(types, name.text());
            let fault = name_fault(named, name, args.len());
            if fault.is_some() {
                return fault;
            }
            arguments_fault(types, Some(name), named.parameters(), args.as_slice())
        }
        Expr::Sum(_, _, _) => Some(Fault::KindMismatch(holder)),
        Expr::Lit(_) | Expr::Out(_) | Expr::Group(_) => Some(Fault::KindMismatch(holder)),
    }
}

// Of an argument at a parameter of this kind.
#[cycle(fault)]
fn argument_fault<'a>(
    types: &TypeIndex,
    holder: Option<&'a Name>,
    kind: TermKind,
    e: &'a Expr,
) -> Option<Fault<'a>>
    ensures { option_map fault_by result
        ≡ argument_fault_in (kinds_at types.now) (name_by holder.entry) kind (expr e.now)
        (type_fault_in (kinds_at types.now) (name_by holder.entry) (expr e.now)) }
{
    match kind {
        TermKind::NumberIn(most) => number_fault(types, holder, most, e),
        TermKind::TypeIn => type_fault(types, holder, e),
        TermKind::NumberOut | TermKind::NoKind => Some(Fault::KindMismatch(holder)),
    }
}

fn kind_at(kinds: &[TermKind], place: usize) -> TermKind
    ensures { result ≡ slice_index_or kinds.now place kinds_spec.NoKind }
{
    match kinds.get(place) {
        Some(kind) => *kind,
        None => TermKind::NoKind,
    }
}

// Of arguments at parameters of these kinds.
#[cycle(fault)]
fn arguments_fault<'a>(
    types: &TypeIndex,
    holder: Option<&'a Name>,
    kinds: &[TermKind],
    args: &'a [Expr],
) -> Option<Fault<'a>>
    ensures { option_map fault_by result
        ≡ arguments_fault_in (kinds_at types.now) (name_by holder.entry) kinds.now (exprs args.now) }
{
    for (place, arg) in args.iter().enumerate() {
        let fault = argument_fault(types, holder, kind_at(kinds, place), arg);
        if fault.is_some() {
            return fault;
        }
    }
    None
}

/// The first fault of the expression of a type word, outer before inner and from left to right.
pub fn fault_in<'a>(types: &TypeIndex, e: &'a Expr) -> Option<Fault<'a>>
    ensures { option_map fault_by result ≡ type_fault_in (kinds_at types.now) None (expr e.now) }
{
    type_fault(types, None, e)
}
