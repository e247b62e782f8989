//! The closed type that the expression of a type word names.
ghost use Rattle.std.specs.Prelude.{◌≡◌, IfOk, drop};
ghost use Rattle.closed_type.specs.View.{closed_arg, closed_args, closed_type};
ghost use Rattle.tlb_syntax.specs.Lexeme.{number_of as number_of_digits};
ghost use Rattle.tlb_syntax.specs.View.{expr, exprs};
ghost use Rattle.kind_terms.specs.Classes.{word_class};
ghost use Rattle.type_closing.specs.Closing.{an_arg, args_of, closed_by, closed_of, first_number as first_number_of};
ghost use Rattle.type_closing.specs.Closing.{literal as literal_of, no_meaning as none_meant, of_family as family_type};
ghost use Rattle.type_closing.specs.Closing.{second_type};
ghost use Rattle.type_closing.specs.Closing.{width_of as width_in};

use bit_slice::Name;
use closed_type::{ClosedArg, ClosedType};
use kind_terms::{Family, WordClass, is_literal, word_class};
use sqlite_items::{Boxed, Items};
use std::alloc::Global;
use tlb_memory::NoMemory;
use tlb_syntax::Expr;

fn literal(e: &Expr) -> u32
    ensures { result ≡ literal_of (expr e.now) }
{
    match e {
        Expr::Lit(number) => *number,
        Expr::Sum(_, _, _) => 0,
        _ => 0,
    }
}

fn first_number(args: &[Expr]) -> u32
    ensures { result ≡ first_number_of (exprs args.now) }
{
    match args {
        [] => 0,
        [first, ..] => literal(first),
    }
}

// The number of decimal digits, where it is at most 2^32 - 1.
fn number(digits: &[u8]) -> Option<u32>
    ensures { result ≡ number_of_digits digits.now }
{
    let mut number: u32 = 0;
    'digits: for digit in digits {
        let value = u32::from(digit.saturating_sub(b'0'));
        number = number.checked_mul(10)?.checked_add(value)?;
    }
    Some(number)
}

fn after(name: &[u8], len: usize) -> &[u8]
    ensures { result.now ≡ drop len name.entry.now }
{
    if len <= name.len() { &name[len..] } else { &[] }
}

// The width that stands in a name after the word of its family.
fn width_of(family: Family, name: &[u8]) -> u32
    ensures { result ≡ width_in family name.now }
{
    let digits = match family {
        Family::Uint | Family::Bits => after(name, 4),
        Family::Int => after(name, 3),
    };
    number(digits).unwrap_or(0)
}

fn of_family(family: Family, width: u32) -> ClosedType
    ensures { closed_type result ≡ family_type family width }
{
    match family {
        Family::Uint => ClosedType::Uint(width),
        Family::Int => ClosedType::Int(width),
        Family::Bits => ClosedType::BitStr(width),
    }
}

// What stands for a type where there is none.
fn no_meaning() -> ClosedType
    ensures { closed_type result ≡ none_meant }
{
    ClosedType::Whole
}

#[cycle(close)]
fn close(alloc: Global, e: &Expr) -> Result<ClosedType, NoMemory>
    ensures { IfOk result (λ t. closed_type t ≡ closed_of (expr e.now)) }
{
    match e {
        Expr::Nat32 => Ok(ClosedType::Nat32),
        Expr::Bits(args) => Ok(ClosedType::Bits(first_number(args.as_slice()))),
        Expr::Below(args) => Ok(ClosedType::Below(first_number(args.as_slice()))),
        Expr::UpTo(args) => Ok(ClosedType::UpTo(first_number(args.as_slice()))),
        Expr::Star(count, repeated) => {
            let inner = close(alloc, repeated.get())?;
            Ok(ClosedType::Repeat(literal(count.get()), Boxed::new(alloc, inner)?))
        }
        Expr::Ref(inner) => {
            let inner = close(alloc, inner.get())?;
            Ok(ClosedType::Ref(Boxed::new(alloc, inner)?))
        }
        Expr::Named(name, args) => close_named(alloc, name, args.as_slice()),
        Expr::Sum(_, _, _) => Ok(no_meaning()),
        Expr::Lit(_) | Expr::Out(_) | Expr::Group(_) => Ok(no_meaning()),
    }
}

#[cycle(close)]
fn close_named(alloc: Global, name: &Name, args: &[Expr]) -> Result<ClosedType, NoMemory>
    ensures { IfOk result (λ t. closed_type t
        ≡ closed_by (word_class name.now) name.now (first_number_of (exprs args.now)) (second_type (exprs args.now))
        (args_of (exprs args.now))) }
{
    match word_class(name.text()) {
        WordClass::Any | WordClass::Cell => Ok(ClosedType::Whole),
        WordClass::Sized(family) => Ok(of_family(family, first_number(args))),
        WordClass::Numbered(family) => Ok(of_family(family, width_of(family, name.text()))),
        WordClass::Hashmap => {
            let inner = close_second(alloc, args)?;
            Ok(ClosedType::Dict(first_number(args), Boxed::new(alloc, inner)?))
        }
        WordClass::HashmapE => {
            let inner = close_second(alloc, args)?;
            Ok(ClosedType::DictE(first_number(args), Boxed::new(alloc, inner)?))
        }
        WordClass::Free => {
            let name = name.copy(alloc)?;
            Ok(ClosedType::Named(name, close_args(alloc, args)?))
        }
        WordClass::TypeWord | WordClass::HashmapNode => Ok(no_meaning()),
    }
}

#[cycle(close)]
fn close_second(alloc: Global, args: &[Expr]) -> Result<ClosedType, NoMemory>
    ensures { IfOk result (λ t. closed_type t ≡ second_type (exprs args.now)) }
{
    match args {
        [] => Ok(no_meaning()),
        [_] => Ok(no_meaning()),
        [_, second, ..] => close(alloc, second),
    }
}

#[cycle(close)]
fn close_args(alloc: Global, args: &[Expr]) -> Result<Items<ClosedArg>, NoMemory>
    ensures { IfOk result (λ closed. closed_args closed ≡ args_of (exprs args.now)) }
{
    let mut closed = Items::new(alloc);
    for arg in args {
        closed.push(close_arg(alloc, arg)?)?;
    }
    Ok(closed)
}

#[cycle(close)]
fn close_arg(alloc: Global, e: &Expr) -> Result<ClosedArg, NoMemory>
    ensures { IfOk result (λ arg. closed_arg arg ≡ an_arg (expr e.now) (closed_of (expr e.now))) }
{
    if is_literal(e) {
        return Ok(ClosedArg::Nat(literal(e)));
    }
    Ok(ClosedArg::Ty(close(alloc, e)?))
}

/// The closed type that an expression names in which nothing is at fault.
pub fn close_word(alloc: Global, e: &Expr) -> Result<ClosedType, NoMemory>
    ensures { IfOk result (λ t. closed_type t ≡ closed_of (expr e.now)) }
{
    close(alloc, e)
}
