//! One step of the machine.
ghost use Rattle.std.specs.Prelude.{◌≡◌, option_map, Ok};
ghost use Rattle.tlb_syntax.specs.Lexeme.{lexeme, sign as spelled};
ghost use Rattle.syntax_check.specs.Machine as spec;
ghost use Rattle.syntax_check.specs.Step.{begin_as, bounds_of, below, innermost, outcome};

use crate::machine::{Cause, Frame, ParserState, Side, Spot};
use tlb_syntax::{Lexeme, Sign};

/// How many levels may be opened, and how many items and parameters may come. `None`: any number.
#[derive(Clone, Copy)]
pub struct Limits {
    pub levels: Option<u32>,
    pub items: Option<u32>,
    pub params: Option<u32>,
}

/// How a term begins.
#[derive(Clone, Copy)]
pub enum Begin {
    /// A name, a number or `#`, which is a whole term.
    Leaf,
    /// A number above 2^32 − 1.
    NoLeaf,
    Prefix,
    Paren,
    Record,
}

/// What becomes of the open brackets.
#[derive(Clone, Copy)]
pub enum Change {
    Keep,
    Open(Frame),
    Close,
}

/// Where a step leads.
#[derive(Clone, Copy)]
pub struct Move {
    pub mode: ParserState,
    pub levels: Option<u32>,
    pub change: Change,
}

/// Where a text's lexemes have led.
#[derive(Drop)]
pub struct Machine {
    pub limits: Limits,
    pub mode: ParserState,
    /// The levels that may still be opened.
    pub levels: Option<u32>,
    /// The open brackets, the innermost last.
    pub open: Vec<Frame>,
}

// One more comes, where one may.
pub(crate) fn spend(count: Option<u32>, why: Cause) -> Result<Option<u32>, Cause>
    ensures { result ≡ spec.spend count why }
{
    match count {
        None => Ok(None),
        Some(0) => Err(why),
        Some(left) => Ok(Some(left - 1)),
    }
}

fn begin_of_sign(sign: Sign) -> Option<Begin>
    ensures { spec.begin_sign sign ≡ option_map begin_as result }
{
    match sign {
        Sign::Hash => Some(Begin::Leaf),
        Sign::Tilde | Sign::Caret => Some(Begin::Prefix),
        Sign::OpenParen => Some(Begin::Paren),
        Sign::OpenBracket => Some(Begin::Record),
        _ => None,
    }
}

pub(crate) fn begin_of(next: Lexeme) -> Option<Begin>
    ensures { spec.begin_of (lexeme next.entry) ≡ option_map begin_as result }
{
    match next {
        Lexeme::Name(_) | Lexeme::Number(Some(_)) => Some(Begin::Leaf),
        Lexeme::Number(None) => Some(Begin::NoLeaf),
        Lexeme::Sign(sign) => begin_of_sign(sign),
        Lexeme::Blank | Lexeme::BinaryTag(_) | Lexeme::HexTag(_) | Lexeme::Other => None,
    }
}

// A term opens a level where one may be opened.
fn opens(begin: Begin, levels: Option<u32>) -> Result<Option<u32>, Cause>
    ensures { result ≡ spec.opens (begin_as begin) levels }
{
    match begin {
        Begin::Leaf | Begin::NoLeaf => Ok(levels),
        Begin::Prefix | Begin::Paren | Begin::Record => spend(levels, Cause::DeepType),
    }
}

fn is_width(sign: Sign) -> bool
    ensures { result ≡ spec.is_width sign }
{
    matches!(sign, Sign::HashHash | Sign::HashLess | Sign::HashLessEqual)
}

fn compares(sign: Sign) -> bool
    ensures { result ≡ spec.compares sign }
{
    matches!(
        sign,
        Sign::Equal | Sign::Less | Sign::LessEqual | Sign::Greater | Sign::GreaterEqual
    )
}

// After a term that stands there.
fn given_to(spot: Spot) -> ParserState
    ensures { result ≡ spec.given_to spot }
{
    match spot {
        Spot::Operand(side, starred) | Spot::Width(side, starred) => ParserState::Operated(
            side, starred,
        ),
        Spot::Argument(side, starred) => ParserState::Applied(side, starred),
        Spot::Field(items) => ParserState::Typed(items),
        Spot::Guarded(items) => ParserState::Items(items),
        Spot::Param(params) => ParserState::Params(params),
    }
}

impl Machine {
    // The brackets stay as they are.
    pub(crate) fn stay(&self, mode: ParserState) -> Move
        ensures { outcome (Ok result) (below self.now) ≡ Ok (spec.at mode self.now.levels (below self.now)) }
    {
        Move {
            mode,
            levels: self.levels,
            change: Change::Keep,
        }
    }

    // A term begins, and so many levels may be opened in it.
    pub(crate) fn begins(&self, begin: Begin, spot: Spot, inner: Option<u32>) -> Result<Move, Cause>
        ensures { spec.begins (bounds_of self.now) (begin_as begin) spot self.now.levels inner (below self.now)
            ≡ outcome result (below self.now) }
    {
        match begin {
            Begin::Leaf => Ok(self.stay(given_to(spot))),
            Begin::NoLeaf => Err(Cause::Syntax),
            Begin::Prefix => {
                let inner = spend(inner, Cause::DeepType)?;
                Ok(self.stay(ParserState::Term(spot, inner)))
            }
            Begin::Paren => {
                let inner = spend(inner, Cause::DeepType)?;
                Ok(Move {
                    mode: ParserState::Apply(Side::Paren, false),
                    levels: inner,
                    change: Change::Open(Frame::Paren(spot, self.levels)),
                })
            }
            Begin::Record => {
                let inner = spend(inner, Cause::DeepType)?;
                Ok(Move {
                    mode: ParserState::Items(self.limits.items),
                    levels: inner,
                    change: Change::Open(Frame::Record(spot, self.levels)),
                })
            }
        }
    }

    pub(crate) fn term(
        &self,
        begin: Option<Begin>,
        spot: Spot,
        inner: Option<u32>,
    ) -> Result<Move, Cause>
        ensures { spec.term (bounds_of self.now) (option_map begin_as begin) spot self.now.levels inner (below self.now)
            ≡ outcome result (below self.now) }
    {
        match begin {
            Some(begin) => self.begins(begin, spot, inner),
            None => Err(Cause::Syntax),
        }
    }

    fn innermost(&self) -> Option<Frame>
        ensures { result ≡ innermost (below self.now) }
    {
        self.open.last().copied()
    }

    // ---- sums

    fn closes_paren(&self) -> Result<Move, Cause>
        ensures { spec.ends_sum Side.Paren self.now.levels (below self.now) (spelled Sign.CloseParen)
            ≡ outcome result (below self.now) }
    {
        match self.innermost() {
            Some(Frame::Paren(spot, levels)) => Ok(Move {
                mode: given_to(spot),
                levels,
                change: Change::Close,
            }),
            Some(Frame::Record(_, _)) | None => Err(Cause::Syntax),
        }
    }

    fn ends_sum(&self, side: Side, next: Lexeme) -> Result<Move, Cause>
        ensures { spec.ends_sum side self.now.levels (below self.now) (lexeme next.entry)
            ≡ outcome result (below self.now) }
    {
        match (side, next) {
            (Side::Paren, Lexeme::Sign(Sign::CloseParen)) => self.closes_paren(),
            (Side::Left(items), Lexeme::Sign(sign)) => {
                if compares(sign) {
                    Ok(self.stay(ParserState::Apply(Side::Right(items), false)))
                } else {
                    Err(Cause::Syntax)
                }
            }
            (Side::Right(items), Lexeme::Sign(Sign::CloseBrace)) => Ok(self.stay(ParserState::Items(
                items,
            ))),
            _ => Err(Cause::Syntax),
        }
    }

    // After a whole operand.
    pub(crate) fn operated(&self, side: Side, starred: bool, next: Lexeme) -> Result<Move, Cause>
        ensures { spec.operated side starred self.now.levels (below self.now) (lexeme next.entry)
            ≡ outcome result (below self.now) }
    {
        match next {
            Lexeme::Sign(Sign::Asterisk) => {
                if starred {
                    Err(Cause::Syntax)
                } else {
                    Ok(self.stay(ParserState::Apply(side, true)))
                }
            }
            Lexeme::Sign(Sign::Plus) => Ok(self.stay(ParserState::Apply(side, false))),
            _ => self.ends_sum(side, next),
        }
    }

    // After a name and maybe arguments: a further argument, or else the name is a whole operand.
    pub(crate) fn applied(&self, side: Side, starred: bool, next: Lexeme) -> Result<Move, Cause>
        ensures { spec.applied (bounds_of self.now) (spec.begin_of (lexeme next.entry)) side starred
            self.now.levels (below self.now) (lexeme next.entry)
            ≡ outcome result (below self.now) }
    {
        match begin_of(next) {
            Some(begin) => self.begins(begin, Spot::Argument(side, starred), self.levels),
            None => self.operated(side, starred, next),
        }
    }

    // Where an operand is expected.
    pub(crate) fn apply(&self, side: Side, starred: bool, next: Lexeme) -> Result<Move, Cause>
        ensures { spec.apply (bounds_of self.now) side starred self.now.levels (below self.now) (lexeme next.entry)
            ≡ outcome result (below self.now) }
    {
        match next {
            Lexeme::Name(_) => Ok(self.stay(ParserState::Applied(side, starred))),
            Lexeme::Sign(sign) => {
                if is_width(sign) {
                    Ok(self.stay(ParserState::Term(Spot::Width(side, starred), self.levels)))
                } else {
                    self.term(
                        begin_of_sign(sign),
                        Spot::Operand(side, starred),
                        self.levels,
                    )
                }
            }
            _ => self.term(begin_of(next), Spot::Operand(side, starred), self.levels),
        }
    }

    // ---- items

    // The limit on levels is judged before that on items.
    fn bare_item(&self, begin: Begin, items: Option<u32>) -> Result<Move, Cause>
        ensures { spec.bare_item (bounds_of self.now) (begin_as begin) items self.now.levels (below self.now)
            ≡ outcome result (below self.now) }
    {
        opens(begin, self.levels)?;
        let items = spend(items, Cause::TooManyFields)?;
        self.begins(begin, Spot::Field(items), self.levels)
    }

    fn closes_record(&self) -> Result<Move, Cause>
        ensures { spec.ends_items self.now.levels (below self.now) (spelled Sign.CloseBracket)
            ≡ outcome result (below self.now) }
    {
        match self.innermost() {
            Some(Frame::Record(spot, levels)) => Ok(Move {
                mode: given_to(spot),
                levels,
                change: Change::Close,
            }),
            Some(Frame::Paren(_, _)) | None => Err(Cause::Syntax),
        }
    }

    fn ends_declared(&self) -> Result<Move, Cause>
        ensures { spec.ends_items self.now.levels (below self.now) (spelled Sign.Equal)
            ≡ outcome result (below self.now) }
    {
        match self.innermost() {
            Some(_) => Err(Cause::Syntax),
            None => Ok(self.stay(ParserState::Result)),
        }
    }

    // The end of a record.
    fn ends_items(&self, next: Lexeme) -> Result<Move, Cause>
        ensures { spec.ends_items self.now.levels (below self.now) (lexeme next.entry)
            ≡ outcome result (below self.now) }
    {
        match next {
            Lexeme::Sign(Sign::Equal) => self.ends_declared(),
            Lexeme::Sign(Sign::CloseBracket) => self.closes_record(),
            _ => Err(Cause::Syntax),
        }
    }

    fn bare_or_end(&self, items: Option<u32>, next: Lexeme) -> Result<Move, Cause>
        ensures { spec.bare_or_end (bounds_of self.now) (spec.begin_of (lexeme next.entry)) items
            self.now.levels (below self.now) (lexeme next.entry)
            ≡ outcome result (below self.now) }
    {
        match begin_of(next) {
            Some(begin) => self.bare_item(begin, items),
            None => self.ends_items(next),
        }
    }

    // Between items.
    pub(crate) fn items(&self, items: Option<u32>, next: Lexeme) -> Result<Move, Cause>
        ensures { spec.items (bounds_of self.now) items self.now.levels (below self.now) (lexeme next.entry)
            ≡ outcome result (below self.now) }
    {
        match next {
            Lexeme::Name(_) => {
                let items = spend(items, Cause::TooManyFields)?;
                Ok(self.stay(ParserState::ItemName(items)))
            }
            Lexeme::Blank => {
                let items = spend(items, Cause::TooManyFields)?;
                Ok(self.stay(ParserState::ItemBlank(items)))
            }
            Lexeme::Sign(Sign::OpenBrace) => {
                let items = spend(items, Cause::TooManyFields)?;
                Ok(self.stay(ParserState::Brace(items)))
            }
            _ => self.bare_or_end(items, next),
        }
    }

    // After the first term of a field.
    pub(crate) fn typed(&self, items: Option<u32>, next: Lexeme) -> Result<Move, Cause>
        ensures { spec.typed (bounds_of self.now) items self.now.levels (below self.now) (lexeme next.entry)
            ≡ outcome result (below self.now) }
    {
        match next {
            Lexeme::Sign(Sign::Question) => {
                Ok(self.stay(ParserState::Term(Spot::Guarded(items), self.levels)))
            }
            Lexeme::Sign(Sign::Dot) => Ok(self.stay(ParserState::Bit(items))),
            _ => self.items(items, next),
        }
    }
}
