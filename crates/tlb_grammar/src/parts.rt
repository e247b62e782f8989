//! Steps that neither open nor close a part.
ghost use Rattle.std.specs.Prelude.{◌≡◌, IfOk};
ghost use Rattle.tlb_syntax.specs.Lexeme.{lexeme};
ghost use Rattle.tlb_syntax.specs.Placed.{IsSpelled};
ghost use Rattle.tlb_grammar.specs.Builder as plain;

use crate::state::{Frame, Guard, Heading, ParserState, Width};
use sqlite_items::Items;
use std::alloc::Global;
use tlb_memory::NoMemory;
use tlb_syntax::{Constructor, Expr, FieldType, Item, Lexeme, Name, Op, ParamKind, Sign};

/// The mode after a term that is part of this.
#[tactic(auto, unfolding(crate::specs::Builder::after_term))]
pub(crate) fn after_term(
    alloc: Global,
    frame: Frame,
    e: Expr,
) -> Result<Option<ParserState>, NoMemory>
    ensures { IfOk result (λ mode. mode ≡ plain.after_term frame e) }
{
    match frame {
        Frame::Operand(sum) => Ok(Some(ParserState::Operated(sum, e))),
        Frame::Argument(sum, name, mut args) => {
            args.push(e)?;
            Ok(Some(ParserState::Applied(sum, name, args)))
        }
        Frame::Width(sum, width) => Ok(Some(ParserState::Operated(sum, limited(alloc, width, e)?))),
        Frame::Field(items, name) => Ok(Some(ParserState::Typed(items, name, e))),
        Frame::Guarded(mut items, name, guard) => {
            items.push(Item::Explicit(name, guarded(guard, e)))?;
            Ok(Some(ParserState::Items(items)))
        }
        Frame::Param(mut constructor) => {
            constructor.params.push(e)?;
            Ok(Some(ParserState::Params(constructor)))
        }
        other => {
            drop(other);
            drop(e);
            Ok(None)
        }
    }
}

fn limited(alloc: Global, width: Width, e: Expr) -> Result<Expr, NoMemory>
    ensures { IfOk result (λ whole. whole ≡ plain.limited width e) }
{
    let mut args = Items::new(alloc);
    args.push(e)?;
    match width {
        Width::Bits => Ok(Expr::Bits(args)),
        Width::Below => Ok(Expr::Below(args)),
        Width::UpTo => Ok(Expr::UpTo(args)),
    }
}

fn guarded(guard: Guard, e: Expr) -> FieldType
    ensures { result ≡ plain.guarded guard e }
{
    match guard {
        Guard::Number(condition) => FieldType::If(condition, e),
        Guard::Bit(number, bit) => FieldType::IfBit(number, bit, e),
    }
}

#[tactic(auto, unfolding(crate::specs::Builder::width))]
pub(crate) fn width(sign: Sign) -> Option<Width>
    ensures { result ≡ plain.width sign }
{
    match sign {
        Sign::HashHash => Some(Width::Bits),
        Sign::HashLess => Some(Width::Below),
        Sign::HashLessEqual => Some(Width::UpTo),
        _ => None,
    }
}

#[tactic(auto, unfolding(crate::specs::Builder::comparison))]
pub(crate) fn comparison(sign: Sign) -> Option<Op>
    ensures { result ≡ plain.comparison sign }
{
    match sign {
        Sign::Equal => Some(Op::Eq),
        Sign::Less => Some(Op::Lt),
        Sign::LessEqual => Some(Op::Le),
        Sign::Greater => Some(Op::Gt),
        Sign::GreaterEqual => Some(Op::Ge),
        _ => None,
    }
}

/// After the `.` of a field.
#[tactic(auto, unfolding(crate::specs::Builder::bit_of))]
pub(crate) fn tested_bit(
    items: Items<Item>,
    name: Option<Name>,
    e: Expr,
    next: Lexeme<'_>,
) -> Option<ParserState>
    ensures { result ≡ plain.bit_of (lexeme next.entry) items name e }
{
    match next {
        Lexeme::Number(Some(bit)) => Some(ParserState::BitEnd(items, name, e, bit)),
        _ => {
            drop(e);
            None
        }
    }
}

/// After `{`, a name and `:`.
#[tactic(auto, unfolding(crate::specs::Builder::kind))]
pub(crate) fn kind(items: Items<Item>, name: Name, next: Lexeme<'_>) -> Option<ParserState>
    ensures { result ≡ plain.kind (lexeme next.entry) items name }
{
    match next {
        Lexeme::Sign(Sign::Hash) => Some(ParserState::KindEnd(items, name, ParamKind::Nat)),
        Lexeme::Name(text) if text == b"Type".as_slice() => Some(ParserState::KindEnd(
            items,
            name,
            ParamKind::Ty,
        )),
        _ => None,
    }
}

/// After the kind of an implicit field.
#[tactic(auto, unfolding(crate::specs::Builder::kind_end))]
pub(crate) fn kind_end(
    items: Items<Item>,
    name: Name,
    kind: ParamKind,
    next: Lexeme<'_>,
) -> Result<Option<ParserState>, NoMemory>
    ensures { IfOk result (λ mode. mode ≡ plain.kind_end (lexeme next.entry) items name kind) }
{
    let mut items = items;
    match next {
        Lexeme::Sign(Sign::CloseBrace) => {
            items.push(Item::Implicit(name, kind))?;
            Ok(Some(ParserState::Items(items)))
        }
        _ => Ok(None),
    }
}

/// After the `=` of a declaration.
#[tactic(auto, unfolding(crate::specs::Builder::result_of))]
pub(crate) fn result_of(
    alloc: Global,
    heading: Heading,
    items: Items<Item>,
    next: Lexeme<'_>,
) -> Result<Option<ParserState>, NoMemory>
    requires { IsSpelled next }
    ensures { IfOk result (λ mode. mode ≡ plain.result_of (lexeme next.entry) heading items) }
{
    match next {
        Lexeme::Name(text) => Ok(Some(ParserState::Params(Constructor {
            exotic: heading.exotic,
            name: heading.name,
            tag: heading.tag,
            items,
            result: Name::new(alloc, text)?,
            params: Items::new(alloc),
        }))),
        _ => Ok(None),
    }
}

impl Frame {
    #[tactic(auto, unfolding(crate::specs::Builder::is_paren))]
    pub(crate) fn is_paren(&self) -> bool
        ensures { result ≡ plain.is_paren self.now }
    {
        matches!(self, Frame::Paren)
    }

    #[tactic(auto, unfolding(crate::specs::Builder::is_record))]
    pub(crate) fn is_record(&self) -> bool
        ensures { result ≡ plain.is_record self.now }
    {
        matches!(self, Frame::Record)
    }

    #[tactic(auto, unfolding(crate::specs::Builder::left_of))]
    pub(crate) fn left(self) -> Option<Items<Item>>
        ensures { result ≡ plain.left_of self }
    {
        match self {
            Frame::Left(items) => Some(items),
            other => {
                drop(other);
                None
            }
        }
    }

    #[tactic(auto, unfolding(crate::specs::Builder::right_of))]
    pub(crate) fn right(self) -> Option<(Items<Item>, Expr, Op)>
        ensures { result ≡ plain.right_of self }
    {
        match self {
            Frame::Right(items, left, op) => Some((items, left, op)),
            other => {
                drop(other);
                None
            }
        }
    }

    #[tactic(auto, unfolding(crate::specs::Builder::heading_of))]
    pub(crate) fn heading(self) -> Option<Heading>
        ensures { result ≡ plain.heading_of self }
    {
        match self {
            Frame::Declaration(heading) => Some(heading),
            other => {
                drop(other);
                None
            }
        }
    }
}
