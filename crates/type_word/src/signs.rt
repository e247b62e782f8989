//! Tokens that a word for a type may not hold.
ghost use Rattle.std.specs.Prelude.{◌≡◌, ◌≤◌, ◌∷◌, ◌++◌, ◌&&◌, ◌||◌, [], IfOk, List, OnOk, length, not};
ghost use Rattle.std.specs.Prelude.{option_copied, slice_get};
ghost use Rattle.tlb_lexer.specs.Tokenization.{Tokenizes};
ghost use Rattle.tlb_lexer.specs.declared.Token.{Token as TokenView};
ghost use Rattle.tlb_syntax.specs.View.{expr, exprs};
ghost use Rattle.kind_terms.specs.Params.{is_literal as is_literal_form};
ghost use Rattle.type_word.specs.Signs.{first_refused, is_sign_byte as is_byte_of_sign, is_symbol as is_symbol_kind};
ghost use Rattle.type_word.specs.Signs.{refused_in, refused_signs, sign_place, sign_places};
ghost use Rattle.type_word.specs.Scanning.{and_then, scanned};
ghost use Rattle.type_word.specs.Views.{scan_by};

use kind_terms::is_literal;
use std::alloc::{AllocError, Global};
use tlb_lexer::laws::at_most_one;
use tlb_lexer::{Token, TokenKind, tokens};
use tlb_memory::NoMemory;
use tlb_syntax::Expr;

/// What a look at the signs of an expression came to.
#[derive(Clone, Copy)]
pub enum Scan<'p> {
    /// A sign at this place is refused.
    Refused(u64),
    /// None is, and these are the places of the signs after it.
    Passed(&'p [u64]),
}

// One sign, which is refused or not.
fn one_sign(is_refused: bool, places: &[u64]) -> Scan<'_>
    ensures { scan_by result ≡ scanned (is_refused ∷ []) places.entry.now }
{
    match places {
        [] => Scan::Passed(places),
        [place, rest @ ..] => {
            if is_refused {
                Scan::Refused(*place)
            } else {
                Scan::Passed(rest)
            }
        }
    }
}

// One sign after others.
fn next_sign<'p>(so_far: Scan<'p>, is_refused: bool) -> Scan<'p>
    ensures { scan_by result ≡ and_then (scan_by so_far.entry) (is_refused ∷ []) }
{
    match so_far {
        Scan::Refused(place) => Scan::Refused(place),
        Scan::Passed(rest) => one_sign(is_refused, rest),
    }
}

// The signs of an expression after others. Of a sum, of a `~` and of a record the first sign is refused, and decides.
#[cycle(read)]
fn read_signs<'p>(so_far: Scan<'p>, e: &Expr) -> Scan<'p>
    ensures { scan_by result ≡ and_then (scan_by so_far.entry) (refused_signs (expr e.now)) }
{
    match e {
        Expr::Lit(_) => so_far,
        Expr::Nat32 => so_far,
        Expr::Named(_, args) => read_all(so_far, args.as_slice()),
        Expr::Bits(args) => read_all(so_far, args.as_slice()),
        Expr::Below(args) => read_all(so_far, args.as_slice()),
        Expr::UpTo(args) => read_all(so_far, args.as_slice()),
        Expr::Sum(first, _, _) => next_sign(read_signs(so_far, first.get()), true),
        Expr::Star(left, right) => {
            let before = read_signs(so_far, left.get());
            let product = next_sign(before, is_refused_product(left.get(), right.get()));
            read_signs(product, right.get())
        }
        Expr::Out(_) => next_sign(so_far, true),
        Expr::Group(_) => next_sign(so_far, true),
        Expr::Ref(inner) => read_signs(so_far, inner.get()),
    }
}

fn is_refused_product(left: &Expr, right: &Expr) -> bool
    ensures { result ≡ (not (is_literal_form (expr left.now)) || is_literal_form (expr right.now)) }
{
    !is_literal(left) || is_literal(right)
}

#[cycle(read)]
fn read_all<'p>(so_far: Scan<'p>, es: &[Expr]) -> Scan<'p>
    ensures { scan_by result ≡ and_then (scan_by so_far.entry) (refused_in (exprs es.now)) }
{
    let mut reached = so_far;
    for e in es {
        reached = read_signs(reached, e);
    }
    reached
}

/// The place of the first sign of the expression that is refused, where its signs stand at these places.
pub fn refused_sign(e: &Expr, places: &[u64]) -> Option<u64>
    ensures { result ≡ first_refused (refused_signs (expr e.now)) places.now }
{
    match read_signs(Scan::Passed(places), e) {
        Scan::Refused(place) => Some(place),
        Scan::Passed(_) => None,
    }
}

fn is_sign_byte(byte: Option<&u8>) -> bool
    ensures { result ≡ is_byte_of_sign (option_copied byte.entry) }
{
    matches!(byte, Some(b'[' | b'~' | b'+' | b'*'))
}

fn is_symbol(kind: TokenKind) -> bool
    ensures { result ≡ is_symbol_kind kind }
{
    match kind {
        TokenKind::Symbol => true,
        TokenKind::Name
        | TokenKind::Blank
        | TokenKind::Number
        | TokenKind::BinaryTag
        | TokenKind::HexTag => false,
    }
}

fn is_sign(text: &[u8], token: &Token) -> bool
    ensures { result ≡ (is_symbol_kind token.now.kind && is_byte_of_sign (slice_get text.now token.now.from)) }
{
    is_symbol(token.kind) && is_sign_byte(text.get(token.from as usize))
}

fn add_place(text: &[u8], token: &Token, places: &mut Vec<u64>) -> Result<(), AllocError>
    ensures { OnOk result (places.new.items ≡ places.old.items ++ sign_place text.now token.now) }
{
    if is_sign(text, token) {
        places.push(u64::from(token.from))?;
    }
    Ok(())
}

#[tactic(auto, using(crate::proofs::Places::places_more))]
fn places_in(alloc: Global, text: &[u8], tokens: &[Token]) -> Result<Vec<u64>, AllocError>
    ensures { IfOk result (λ places. places.items ≡ sign_places text.now tokens.now) }
{
    let mut places = Vec::new(alloc);
    for token in tokens {
        add_place(text, token, &mut places)?;
    }
    Ok(places)
}

/// The places of the signs of a text that has tokens.
pub fn places_of(alloc: Global, text: &[u8]) -> Result<Vec<u64>, NoMemory>
    requires { length text.now ≤ 1048576 }
    ensures { IfOk result (λ places. (ts : List TokenView) → Tokenizes text.now ts
        → places.items ≡ sign_places text.now ts) }
{
    at_most_one();
    match tokens(alloc, text) {
        Ok(tokens) => Ok(places_in(alloc, text, &tokens)?),
        Err(_) => Err(NoMemory),
    }
}
