//! Canonical texts.
ghost use Rattle.std.specs.Prelude.{◌≡◌, ◌+◌, ◌++◌, map, decimal, codes, replicate, IfOk, OnOk};
ghost use Rattle.tlb_syntax.specs.Text.{addend_text, addends_text, constructor_text, exotic_text, expr_text, item_text};
ghost use Rattle.tlb_syntax.specs.Text.{kind_text, name_text, op_text, spaced, spaced_items, tag_text, type_text};
ghost use Rattle.tlb_syntax.specs.View.{constructor, expr, exprs, field_type, item, items, tag};

use crate::tree::{Constructor, Expr, FieldType, Item, ParamKind, Tag};
use bit_slice::Name;
use nat_solver::Op;
use std::alloc::{AllocError, Global};
use tlb_memory::NoMemory;

/// The canonical text of a constructor: one text for each tree, without `;`.
pub fn canonical(alloc: Global, c: &Constructor) -> Result<Vec<u8>, NoMemory>
    ensures { IfOk result (λ text. text.items ≡ constructor_text (constructor c.now)) }
{
    let mut text = Vec::new(alloc);
    put_exotic(&mut text, c.exotic)?;
    put_name(&mut text, &c.name)?;
    put_tag(&mut text, &c.tag)?;
    put_items(alloc, &mut text, c.items.as_slice())?;
    text.extend_from_slice(b" = ")?;
    text.extend_from_slice(c.result.text())?;
    put_exprs(alloc, &mut text, c.params.as_slice())?;
    Ok(text)
}

/// The canonical text of an expression.
pub fn show(alloc: Global, e: &Expr) -> Result<Vec<u8>, NoMemory>
    ensures { IfOk result (λ text. text.items ≡ expr_text (expr e.now)) }
{
    let mut text = Vec::new(alloc);
    put_expr(alloc, &mut text, e)?;
    Ok(text)
}

fn put_exotic(text: &mut Vec<u8>, exotic: bool) -> Result<(), AllocError>
    ensures { OnOk result (text.new.items ≡ text.old.items ++ exotic_text exotic) }
{
    if exotic {
        text.push(b'!')?;
    }
    Ok(())
}

fn put_name(text: &mut Vec<u8>, name: &Option<Name>) -> Result<(), AllocError>
    ensures { OnOk result (text.new.items ≡ text.old.items ++ name_text name.now) }
{
    match name {
        Some(name) => text.extend_from_slice(name.text()),
        None => text.extend_from_slice(b"_"),
    }
}

fn put_number(alloc: Global, text: &mut Vec<u8>, number: u32) -> Result<(), AllocError>
    ensures { OnOk result (text.new.items ≡ text.old.items ++ decimal number) }
{
    let digits = format!(in alloc; "{}", number)?;
    text.extend_from_slice(digits.as_bytes())
}

fn put_tag(text: &mut Vec<u8>, written: &Tag) -> Result<(), AllocError>
    ensures { OnOk result (text.new.items ≡ text.old.items ++ tag_text (tag written.now)) }
{
    let Tag::Given(bits) = written else {
        return Ok(());
    };
    text.extend_from_slice(b"$")?;
    let bits = bits.slice();
    if bits.len() == 0 {
        return text.extend_from_slice(b"_");
    }
    'bits: for i in 0..bits.len() {
        text.push(if bits.known_bit(i) { b'1' } else { b'0' })?;
    }
    Ok(())
}

#[cycle(print)]
fn put_expr(alloc: Global, text: &mut Vec<u8>, e: &Expr) -> Result<(), AllocError>
    ensures { OnOk result (text.new.items ≡ text.old.items ++ expr_text (expr e.now)) }
{
    match e {
        Expr::Lit(number) => put_number(alloc, text, *number),
        Expr::Named(name, args) => {
            if args.is_empty() {
                return text.extend_from_slice(name.text());
            }
            put_applied(alloc, text, name.text(), args.as_slice())
        }
        Expr::Nat32 => text.extend_from_slice(b"#"),
        Expr::Bits(args) => put_applied(alloc, text, b"##", args.as_slice()),
        Expr::Below(args) => put_applied(alloc, text, b"#<", args.as_slice()),
        Expr::UpTo(args) => put_applied(alloc, text, b"#<=", args.as_slice()),
        Expr::Sum(first, second, more) => {
            let more = more.as_slice();
            open(text, more.len())?;
            text.extend_from_slice(b"(")?;
            put_expr(alloc, text, first.get())?;
            put_addend(alloc, text, second.get())?;
            put_addends(alloc, text, more)
        }
        Expr::Star(left, right) => {
            text.extend_from_slice(b"(")?;
            put_expr(alloc, text, left.get())?;
            text.extend_from_slice(b" * ")?;
            put_expr(alloc, text, right.get())?;
            text.extend_from_slice(b")")
        }
        Expr::Out(inner) => {
            text.extend_from_slice(b"~")?;
            put_expr(alloc, text, inner.get())
        }
        Expr::Ref(inner) => {
            text.extend_from_slice(b"^")?;
            put_expr(alloc, text, inner.get())
        }
        Expr::Group(inner) => {
            text.extend_from_slice(b"[")?;
            put_items(alloc, text, inner.as_slice())?;
            text.extend_from_slice(b" ]")
        }
    }
}

// A word and its arguments in parentheses.
#[cycle(print)]
fn put_applied(
    alloc: Global,
    text: &mut Vec<u8>,
    word: &[u8],
    args: &[Expr],
) -> Result<(), AllocError>
    ensures { OnOk result (text.new.items
        ≡ text.old.items ++ (codes "(" ++ word.now ++ spaced (exprs args.now) ++ codes ")")) }
{
    text.extend_from_slice(b"(")?;
    text.extend_from_slice(word)?;
    put_exprs(alloc, text, args)?;
    text.extend_from_slice(b")")
}

// A further term of a sum, which closes a parenthesis.
#[cycle(print)]
fn put_addend(alloc: Global, text: &mut Vec<u8>, term: &Expr) -> Result<(), AllocError>
    ensures { OnOk result (text.new.items ≡ text.old.items ++ addend_text (expr term.now)) }
{
    text.extend_from_slice(b" + ")?;
    put_expr(alloc, text, term)?;
    text.extend_from_slice(b")")
}

// Further terms, without recursion from one to the next.
#[cycle(print)]
fn put_addends(alloc: Global, text: &mut Vec<u8>, terms: &[Expr]) -> Result<(), AllocError>
    ensures { OnOk result (text.new.items ≡ text.old.items ++ addends_text (map expr terms.now)) }
{
    'terms: for term in terms {
        put_addend(alloc, text, term)?;
    }
    Ok(())
}

fn open(text: &mut Vec<u8>, count: usize) -> Result<(), AllocError>
    ensures { OnOk result (text.new.items ≡ text.old.items ++ replicate count 40) }
{
    'parens: for _ in 0..count {
        text.push(b'(')?;
    }
    Ok(())
}

#[cycle(print)]
fn put_exprs(alloc: Global, text: &mut Vec<u8>, list: &[Expr]) -> Result<(), AllocError>
    ensures { OnOk result (text.new.items ≡ text.old.items ++ spaced (exprs list.now)) }
{
    'list: for e in list {
        text.extend_from_slice(b" ")?;
        put_expr(alloc, text, e)?;
    }
    Ok(())
}

#[cycle(print)]
fn put_items(alloc: Global, text: &mut Vec<u8>, list: &[Item]) -> Result<(), AllocError>
    ensures { OnOk result (text.new.items ≡ text.old.items ++ spaced_items (items list.now)) }
{
    'list: for i in list {
        text.extend_from_slice(b" ")?;
        put_item(alloc, text, i)?;
    }
    Ok(())
}

#[cycle(print)]
fn put_item(alloc: Global, text: &mut Vec<u8>, i: &Item) -> Result<(), AllocError>
    ensures { OnOk result (text.new.items ≡ text.old.items ++ item_text (item i.now)) }
{
    match i {
        Item::Implicit(name, kind) => {
            text.extend_from_slice(b"{")?;
            text.extend_from_slice(name.text())?;
            text.extend_from_slice(b":")?;
            text.extend_from_slice(kind_text(*kind))?;
            text.extend_from_slice(b"}")
        }
        Item::Check(left, op, right) => {
            text.extend_from_slice(b"{")?;
            put_expr(alloc, text, left)?;
            text.extend_from_slice(b" ")?;
            text.extend_from_slice(op_text(*op))?;
            text.extend_from_slice(b" ")?;
            put_expr(alloc, text, right)?;
            text.extend_from_slice(b"}")
        }
        Item::Explicit(name, kind) => {
            put_name(text, name)?;
            text.extend_from_slice(b":")?;
            put_type(alloc, text, kind)
        }
    }
}

#[cycle(print)]
fn put_type(alloc: Global, text: &mut Vec<u8>, kind: &FieldType) -> Result<(), AllocError>
    ensures { OnOk result (text.new.items ≡ text.old.items ++ type_text (field_type kind.now)) }
{
    match kind {
        FieldType::Plain(e) => put_expr(alloc, text, e),
        FieldType::If(condition, e) => {
            put_expr(alloc, text, condition)?;
            text.extend_from_slice(b"?")?;
            put_expr(alloc, text, e)
        }
        FieldType::IfBit(number, bit, e) => {
            put_expr(alloc, text, number)?;
            text.extend_from_slice(b".")?;
            put_number(alloc, text, *bit)?;
            text.extend_from_slice(b"?")?;
            put_expr(alloc, text, e)
        }
    }
}

fn kind_text(kind: ParamKind) -> &'static [u8]
    ensures { result.now ≡ kind_text kind }
{
    match kind {
        ParamKind::Nat => b"#",
        ParamKind::Ty => b"Type",
    }
}

fn op_text(op: Op) -> &'static [u8]
    ensures { result.now ≡ op_text op }
{
    match op {
        Op::Eq => b"=",
        Op::Lt => b"<",
        Op::Le => b"<=",
        Op::Gt => b">",
        Op::Ge => b">=",
    }
}
