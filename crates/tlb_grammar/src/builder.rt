//! One step for each lexeme.
ghost use Rattle.std.specs.Prelude.{◌≡◌, ◌∷◌, Some, IfOk, OnOk, MatchOption};
ghost use Rattle.tlb_syntax.specs.Lexeme.{lexeme};
ghost use Rattle.tlb_syntax.specs.Placed.{IsSpelled};
ghost use Rattle.tlb_grammar.specs.Builder as plain;
ghost use Rattle.tlb_grammar.specs.Builder.{at};
ghost use Rattle.tlb_grammar.specs.Follows.{under, state, Follows, Covered, IsBare, Removes, RemovesAny};

use crate::parts::{after_term, comparison, kind, kind_end, result_of, tested_bit, width};
use crate::state::{Frame, Guard, Heading, OpenSum, ParserState};
use sqlite_items::{Boxed, Items};
use std::alloc::Global;
use tlb_memory::NoMemory;
use tlb_syntax::{
    BitString, Constructor, Expr, FieldType, Item, Lexeme, Name, Op, Sign, Tag, tag_bits,
};

/// What is begun, but for the mode.
#[derive(Drop)]
pub(crate) struct Builder {
    pub(crate) alloc: Global,
    /// What the mode is part of, the innermost last.
    pub(crate) below: Items<Frame>,
    /// The declarations before.
    pub(crate) done: Items<Constructor>,
}

impl Builder {
    fn push(&mut self, frame: Frame) -> Result<(), NoMemory>
        ensures { OnOk result (Covered self.old self.new frame) }
    {
        self.below.push(frame)?;
        Ok(())
    }

    fn pop(&mut self) -> Option<Frame>
        ensures { MatchOption result (IsBare self.old self.new) (λ frame. Covered self.new self.old frame) }
    {
        self.below.pop()
    }

    fn pop_paren(&mut self) -> bool
        ensures { RemovesAny plain.is_paren self.old self.new result }
    {
        let Some(frame) = self.pop() else {
            return false;
        };
        let is_paren = frame.is_paren();
        drop(frame);
        is_paren
    }

    fn pop_record(&mut self) -> bool
        ensures { RemovesAny plain.is_record self.old self.new result }
    {
        let Some(frame) = self.pop() else {
            return false;
        };
        let is_record = frame.is_record();
        drop(frame);
        is_record
    }

    // The items before a comparison.
    fn pop_left(&mut self) -> Option<Items<Item>>
        ensures { Removes plain.left_of self.old self.new result }
    {
        let Some(frame) = self.pop() else {
            return None;
        };
        frame.left()
    }

    // The items before a comparison, and its left.
    fn pop_right(&mut self) -> Option<(Items<Item>, Expr, Op)>
        ensures { Removes plain.right_of self.old self.new result }
    {
        let Some(frame) = self.pop() else {
            return None;
        };
        frame.right()
    }

    // What stands before the items of a declaration.
    fn pop_heading(&mut self) -> Option<Heading>
        ensures { Removes plain.heading_of self.old self.new result }
    {
        let Some(frame) = self.pop() else {
            return None;
        };
        frame.heading()
    }

    // Goes into a part.
    fn enter(&mut self, frame: Frame, mode: ParserState) -> Result<Option<ParserState>, NoMemory>
        ensures { Follows self.new result (Some (at mode (frame ∷ under self.old) self.old.done)) }
    {
        self.push(frame)?;
        Ok(Some(mode))
    }

    // After a term, with the prefixes before it.
    #[tactic(auto, unfolding(crate::specs::Builder::given))]
    fn given(&mut self, e: Expr) -> Result<Option<ParserState>, NoMemory>
        ensures { Follows self.new result (plain.given e (under self.old) self.old.done) }
    {
        let mut e = e;
        'frames: while let Some(frame) = self.pop() {
            match frame {
                Frame::Out => {
                    drop(frame);
                    e = Expr::Out(Boxed::new(self.alloc, e)?);
                }
                Frame::Ref => {
                    drop(frame);
                    e = Expr::Ref(Boxed::new(self.alloc, e)?);
                }
                _ => return after_term(self.alloc, frame, e),
            }
        }
        drop(e);
        Ok(None)
    }

    // A term begins, by a symbol.
    #[tactic(auto, unfolding(crate::specs::Builder::term_sign))]
    fn term_sign(&mut self, sign: Sign) -> Result<Option<ParserState>, NoMemory>
        ensures { Follows self.new result (plain.term_sign sign (under self.old) self.old.done) }
    {
        match sign {
            Sign::Hash => self.given(Expr::Nat32),
            Sign::Tilde => self.enter(Frame::Out, ParserState::Term),
            Sign::Caret => self.enter(Frame::Ref, ParserState::Term),
            Sign::OpenParen => {
                let sum = OpenSum::new();
                self.enter(Frame::Paren, ParserState::Apply(sum))
            }
            Sign::OpenBracket => {
                let items = Items::new(self.alloc);
                self.enter(Frame::Record, ParserState::Items(items))
            }
            _ => Ok(None),
        }
    }

    // A term begins.
    #[tactic(auto, unfolding(crate::specs::Builder::term))]
    fn term(&mut self, next: Lexeme<'_>) -> Result<Option<ParserState>, NoMemory>
        requires { IsSpelled next }
        ensures { Follows self.new result (plain.term (lexeme next.entry) (under self.old) self.old.done) }
    {
        match next {
            Lexeme::Name(text) => {
                let name = Name::new(self.alloc, text)?;
                let args = Items::new(self.alloc);
                self.given(Expr::Named(name, args))
            }
            Lexeme::Number(Some(n)) => self.given(Expr::Lit(n)),
            Lexeme::Sign(sign) => self.term_sign(sign),
            Lexeme::Number(None)
            | Lexeme::Blank
            | Lexeme::BinaryTag(_)
            | Lexeme::HexTag(_)
            | Lexeme::Other => Ok(None),
        }
    }

    // A term begins that is such a part.
    fn term_in(&mut self, frame: Frame, next: Lexeme<'_>) -> Result<Option<ParserState>, NoMemory>
        requires { IsSpelled next }
        ensures { Follows self.new result (plain.term (lexeme next.entry) (frame ∷ under self.old) self.old.done) }
    {
        self.push(frame)?;
        self.term(next)
    }

    // A term that begins with a symbol, as such a part.
    fn term_sign_in(&mut self, frame: Frame, sign: Sign) -> Result<Option<ParserState>, NoMemory>
        ensures { Follows self.new result (plain.term_sign sign (frame ∷ under self.old) self.old.done) }
    {
        self.push(frame)?;
        self.term_sign(sign)
    }

    // Where an operand is expected.
    #[tactic(auto, unfolding(crate::specs::Builder::apply))]
    fn apply(&mut self, sum: OpenSum, next: Lexeme<'_>) -> Result<Option<ParserState>, NoMemory>
        requires { IsSpelled next }
        ensures { Follows self.new result (plain.apply (lexeme next.entry) sum (under self.old) self.old.done) }
    {
        match next {
            Lexeme::Name(text) => {
                let name = Name::new(self.alloc, text)?;
                let args = Items::new(self.alloc);
                Ok(Some(ParserState::Applied(sum, name, args)))
            }
            Lexeme::Sign(sign) => match width(sign) {
                Some(width) => self.enter(Frame::Width(sum, width), ParserState::Term),
                None => self.term_sign_in(Frame::Operand(sum), sign),
            },
            Lexeme::Number(Some(n)) => {
                self.push(Frame::Operand(sum))?;
                self.given(Expr::Lit(n))
            }
            Lexeme::Number(None)
            | Lexeme::Blank
            | Lexeme::BinaryTag(_)
            | Lexeme::HexTag(_)
            | Lexeme::Other => {
                drop(sum);
                Ok(None)
            }
        }
    }

    // After a whole operand.
    #[tactic(auto, unfolding(crate::specs::Builder::operated))]
    fn operated(
        &mut self,
        sum: OpenSum,
        e: Expr,
        next: Lexeme<'_>,
    ) -> Result<Option<ParserState>, NoMemory>
        ensures { Follows self.new result (plain.operated (lexeme next.entry) sum e (under self.old) self.old.done) }
    {
        match next {
            Lexeme::Sign(sign) => self.operated_sign(sum, e, sign),
            Lexeme::Name(_)
            | Lexeme::Blank
            | Lexeme::Number(_)
            | Lexeme::BinaryTag(_)
            | Lexeme::HexTag(_)
            | Lexeme::Other => {
                drop(sum);
                drop(e);
                Ok(None)
            }
        }
    }

    #[tactic(auto, unfolding(crate::specs::Builder::operated_sign))]
    fn operated_sign(
        &mut self,
        sum: OpenSum,
        e: Expr,
        sign: Sign,
    ) -> Result<Option<ParserState>, NoMemory>
        ensures { Follows self.new result (plain.operated_sign sign sum e (under self.old) self.old.done) }
    {
        match sign {
            Sign::Asterisk => Ok(Some(ParserState::Apply(sum.times(self.alloc, e)?))),
            Sign::Plus => Ok(Some(ParserState::Apply(sum.added(self.alloc, e)?))),
            _ => {
                let whole = sum.closed(self.alloc, e)?;
                self.closed(whole, sign)
            }
        }
    }

    // After a whole sum.
    #[tactic(auto, unfolding(crate::specs::Builder::ends_sum, crate::specs::Builder::compared))]
    fn closed(&mut self, e: Expr, sign: Sign) -> Result<Option<ParserState>, NoMemory>
        ensures { Follows self.new result (plain.ends_sum sign e (under self.old) self.old.done) }
    {
        match sign {
            Sign::CloseParen => self.ends_paren(e),
            Sign::CloseBrace => self.ends_right(e),
            _ => match comparison(sign) {
                Some(op) => self.ends_left(e, op),
                None => {
                    drop(e);
                    Ok(None)
                }
            },
        }
    }

    fn ends_paren(&mut self, e: Expr) -> Result<Option<ParserState>, NoMemory>
        ensures { Follows self.new result (plain.ends_paren
            (plain.is_innermost plain.is_paren (under self.old)) e (plain.outer (under self.old)) self.old.done) }
    {
        if self.pop_paren() {
            return self.given(e);
        }
        drop(e);
        Ok(None)
    }

    fn ends_left(&mut self, e: Expr, op: Op) -> Result<Option<ParserState>, NoMemory>
        ensures { Follows self.new result (plain.ends_left
            (plain.innermost plain.left_of (under self.old)) e op (plain.outer (under self.old)) self.old.done) }
    {
        match self.pop_left() {
            Some(items) => {
                let sum = OpenSum::new();
                self.enter(Frame::Right(items, e, op), ParserState::Apply(sum))
            }
            None => {
                drop(e);
                Ok(None)
            }
        }
    }

    fn ends_right(&mut self, e: Expr) -> Result<Option<ParserState>, NoMemory>
        ensures { Follows self.new result (plain.ends_right (plain.innermost plain.right_of (under self.old)) e
            (plain.outer (under self.old)) self.old.done) }
    {
        match self.pop_right() {
            Some((mut items, left, op)) => {
                items.push(Item::Check(left, op, e))?;
                Ok(Some(ParserState::Items(items)))
            }
            None => {
                drop(e);
                Ok(None)
            }
        }
    }

    // After a name and maybe arguments.
    #[tactic(auto, unfolding(crate::specs::Builder::applied))]
    fn applied(
        &mut self,
        sum: OpenSum,
        name: Name,
        args: Items<Expr>,
        next: Lexeme<'_>,
    ) -> Result<Option<ParserState>, NoMemory>
        requires { IsSpelled next }
        ensures { Follows self.new result
            (plain.applied (lexeme next.entry) sum name args (under self.old) self.old.done) }
    {
        match next {
            Lexeme::Sign(sign) => self.applied_sign(sum, name, args, sign),
            Lexeme::Name(_)
            | Lexeme::Blank
            | Lexeme::Number(_)
            | Lexeme::BinaryTag(_)
            | Lexeme::HexTag(_)
            | Lexeme::Other => self.term_in(Frame::Argument(sum, name, args), next),
        }
    }

    #[tactic(auto, unfolding(crate::specs::Builder::applied_sign))]
    fn applied_sign(
        &mut self,
        sum: OpenSum,
        name: Name,
        args: Items<Expr>,
        sign: Sign,
    ) -> Result<Option<ParserState>, NoMemory>
        ensures { Follows self.new result (plain.applied_sign sign sum name args (under self.old) self.old.done) }
    {
        match sign {
            Sign::Colon => self.named_kind(name),
            Sign::Hash | Sign::Tilde | Sign::Caret | Sign::OpenParen | Sign::OpenBracket => {
                self.term_sign_in(Frame::Argument(sum, name, args), sign)
            }
            _ => self.operated_sign(sum, Expr::Named(name, args), sign),
        }
    }

    // After `{`, a name and `:`.
    fn named_kind(&mut self, name: Name) -> Result<Option<ParserState>, NoMemory>
        ensures { Follows self.new result (plain.kind_of name (plain.innermost plain.left_of (under self.old))
            (plain.outer (under self.old)) self.old.done) }
    {
        match self.pop_left() {
            Some(items) => Ok(Some(ParserState::Kind(items, name))),
            None => Ok(None),
        }
    }

    // Between items.
    #[tactic(auto, unfolding(crate::specs::Builder::items))]
    fn items(
        &mut self,
        items: Items<Item>,
        next: Lexeme<'_>,
    ) -> Result<Option<ParserState>, NoMemory>
        requires { IsSpelled next }
        ensures { Follows self.new result (plain.items (lexeme next.entry) items (under self.old) self.old.done) }
    {
        match next {
            Lexeme::Name(text) => Ok(Some(ParserState::ItemName(
                items,
                Name::new(self.alloc, text)?,
            ))),
            Lexeme::Blank => Ok(Some(ParserState::ItemBlank(items))),
            Lexeme::Number(_) => self.term_in(Frame::Field(items, None), next),
            Lexeme::BinaryTag(_) | Lexeme::HexTag(_) => {
                let bits = tag_bits(self.alloc, &next)?;
                self.tagged(items, bits)
            }
            Lexeme::Sign(sign) => self.items_sign(items, sign),
            Lexeme::Other => Ok(None),
        }
    }

    // After the tag of a declaration.
    #[tactic(auto, unfolding(crate::specs::Builder::tag_after))]
    fn tagged(
        &mut self,
        items: Items<Item>,
        bits: Option<BitString>,
    ) -> Result<Option<ParserState>, NoMemory>
        ensures { Follows self.new result (plain.tag_after bits items (under self.old) self.old.done) }
    {
        let Some(bits) = bits else {
            return Ok(None);
        };
        match self.pop_heading() {
            Some(
                Heading {
                    exotic,
                    name,
                    tag: _,
                },
            ) => {
                let tag = Tag::Given(bits);
                self.enter(
                    Frame::Declaration(Heading { exotic, name, tag }),
                    ParserState::Items(items),
                )
            }
            None => Ok(None),
        }
    }

    #[tactic(auto, unfolding(crate::specs::Builder::items_sign))]
    fn items_sign(
        &mut self,
        items: Items<Item>,
        sign: Sign,
    ) -> Result<Option<ParserState>, NoMemory>
        ensures { Follows self.new result (plain.items_sign sign items (under self.old) self.old.done) }
    {
        match sign {
            Sign::OpenBrace => {
                let sum = OpenSum::new();
                self.enter(Frame::Left(items), ParserState::Apply(sum))
            }
            Sign::Equal => self.ends_items(items),
            Sign::CloseBracket => self.ends_record(items),
            _ => self.term_sign_in(Frame::Field(items, None), sign),
        }
    }

    // The items of a declaration end.
    fn ends_items(&mut self, items: Items<Item>) -> Result<Option<ParserState>, NoMemory>
        ensures { Follows self.new result (plain.ends_items
            (plain.innermost plain.heading_of (under self.old)) items (plain.outer (under self.old)) self.old.done) }
    {
        match self.pop_heading() {
            Some(heading) => Ok(Some(ParserState::Result(heading, items))),
            None => Ok(None),
        }
    }

    // The items of a record in brackets end.
    fn ends_record(&mut self, items: Items<Item>) -> Result<Option<ParserState>, NoMemory>
        ensures { Follows self.new result (plain.ends_record
            (plain.is_innermost plain.is_record (under self.old)) items (plain.outer (under self.old)) self.old.done) }
    {
        if self.pop_record() {
            return self.given(Expr::Group(items));
        }
        Ok(None)
    }

    // After the first term of a field.
    #[tactic(auto, unfolding(crate::specs::Builder::typed))]
    fn typed(
        &mut self,
        items: Items<Item>,
        name: Option<Name>,
        e: Expr,
        next: Lexeme<'_>,
    ) -> Result<Option<ParserState>, NoMemory>
        requires { IsSpelled next }
        ensures { Follows self.new result
            (plain.typed (lexeme next.entry) items name e (under self.old) self.old.done) }
    {
        match next {
            Lexeme::Sign(Sign::Question) => self.enter(
                Frame::Guarded(items, name, Guard::Number(e)),
                ParserState::Term,
            ),
            Lexeme::Sign(Sign::Dot) => Ok(Some(ParserState::Bit(items, name, e))),
            _ => {
                let mut items = items;
                items.push(Item::Explicit(name, FieldType::Plain(e)))?;
                self.items(items, next)
            }
        }
    }

    // After a name that begins an item.
    #[tactic(auto, unfolding(crate::specs::Builder::named))]
    fn named(
        &mut self,
        items: Items<Item>,
        name: Name,
        next: Lexeme<'_>,
    ) -> Result<Option<ParserState>, NoMemory>
        requires { IsSpelled next }
        ensures { Follows self.new result (plain.named (lexeme next.entry) items name (under self.old) self.old.done) }
    {
        match next {
            Lexeme::Sign(Sign::Colon) => self.enter(
                Frame::Field(items, Some(name)),
                ParserState::Term,
            ),
            _ => {
                let args = Items::new(self.alloc);
                self.typed(items, None, Expr::Named(name, args), next)
            }
        }
    }

    #[tactic(auto, unfolding(crate::specs::Builder::named_blank))]
    fn named_blank(
        &mut self,
        items: Items<Item>,
        next: Lexeme<'_>,
    ) -> Result<Option<ParserState>, NoMemory>
        ensures { Follows self.new result (plain.named_blank (lexeme next.entry) items (under self.old) self.old.done) }
    {
        match next {
            Lexeme::Sign(Sign::Colon) => self.enter(Frame::Field(items, None), ParserState::Term),
            _ => Ok(None),
        }
    }

    #[tactic(auto, unfolding(crate::specs::Builder::bit_end))]
    fn bit_end(
        &mut self,
        items: Items<Item>,
        name: Option<Name>,
        e: Expr,
        bit: u32,
        next: Lexeme<'_>,
    ) -> Result<Option<ParserState>, NoMemory>
        ensures { Follows self.new result
            (plain.bit_end (lexeme next.entry) items name e bit (under self.old) self.old.done) }
    {
        match next {
            Lexeme::Sign(Sign::Question) => self.enter(
                Frame::Guarded(items, name, Guard::Bit(e, bit)),
                ParserState::Term,
            ),
            _ => Ok(None),
        }
    }

    // After a parameter, or the type's name.
    #[tactic(auto, unfolding(crate::specs::Builder::params))]
    fn params(
        &mut self,
        constructor: Constructor,
        next: Lexeme<'_>,
    ) -> Result<Option<ParserState>, NoMemory>
        requires { IsSpelled next }
        ensures { Follows self.new result
            (plain.params (lexeme next.entry) constructor (under self.old) self.old.done) }
    {
        match next {
            Lexeme::Sign(Sign::Semicolon) => {
                self.done.push(constructor)?;
                Ok(Some(ParserState::Start))
            }
            _ => self.term_in(Frame::Param(constructor), next),
        }
    }

    // Between declarations.
    #[tactic(auto, unfolding(crate::specs::Builder::start))]
    fn start(&mut self, next: Lexeme<'_>) -> Result<Option<ParserState>, NoMemory>
        requires { IsSpelled next }
        ensures { Follows self.new result (plain.start (lexeme next.entry) (under self.old) self.old.done) }
    {
        match next {
            Lexeme::Sign(Sign::Bang) => Ok(Some(ParserState::Marked)),
            _ => self.head(false, next),
        }
    }

    // Where the name of a declaration is expected.
    #[tactic(auto, unfolding(crate::specs::Builder::head))]
    fn head(&mut self, exotic: bool, next: Lexeme<'_>) -> Result<Option<ParserState>, NoMemory>
        requires { IsSpelled next }
        ensures { Follows self.new result (plain.head exotic (lexeme next.entry) (under self.old) self.old.done) }
    {
        let name = match next {
            Lexeme::Name(text) => Some(Name::new(self.alloc, text)?),
            Lexeme::Blank => None,
            _ => return Ok(None),
        };
        let items = Items::new(self.alloc);
        let tag = Tag::Computed;
        self.enter(
            Frame::Declaration(Heading { exotic, name, tag }),
            ParserState::Items(items),
        )
    }

    /// The mode after the lexeme, or `None` where it can't come.
    #[tactic(auto, unfolding(crate::specs::Builder::step_mode))]
    pub(crate) fn step(
        &mut self,
        mode: ParserState,
        next: Lexeme<'_>,
    ) -> Result<Option<ParserState>, NoMemory>
        requires { IsSpelled next }
        ensures { Follows self.new result (plain.step (state mode self.old) (lexeme next.entry)) }
    {
        match mode {
            ParserState::Start => self.start(next),
            ParserState::Marked => self.head(true, next),
            ParserState::Items(items) => self.items(items, next),
            ParserState::ItemName(items, name) => self.named(items, name, next),
            ParserState::ItemBlank(items) => self.named_blank(items, next),
            ParserState::Typed(items, name, e) => self.typed(items, name, e, next),
            ParserState::Bit(items, name, e) => Ok(tested_bit(items, name, e, next)),
            ParserState::BitEnd(items, name, e, bit) => self.bit_end(items, name, e, bit, next),
            ParserState::Kind(items, name) => Ok(kind(items, name, next)),
            ParserState::KindEnd(items, name, kind) => kind_end(items, name, kind, next),
            ParserState::Term => self.term(next),
            ParserState::Apply(sum) => self.apply(sum, next),
            ParserState::Applied(sum, name, args) => self.applied(sum, name, args, next),
            ParserState::Operated(sum, e) => self.operated(sum, e, next),
            ParserState::Result(heading, items) => result_of(self.alloc, heading, items, next),
            ParserState::Params(constructor) => self.params(constructor, next),
        }
    }
}
