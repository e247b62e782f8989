//! A step of the machine in each of its modes.
ghost use Rattle.std.specs.Prelude.{◌≡◌, bytes_eq, codes};
ghost use Rattle.tlb_syntax.specs.Lexeme.{lexeme};
ghost use Rattle.tlb_syntax.specs.Placed.{IsSpelled};
ghost use Rattle.syntax_check.specs.Machine as spec;
ghost use Rattle.syntax_check.specs.Step.{bounds_of, state, below, in_mode, outcome};

use crate::machine::{Cause, ParserState, Side, Spot};
use crate::step::{Machine, Move, begin_of, spend};
use tlb_syntax::{Lexeme, Sign, has_tag_bits};

// Whether it is the name `Type`.
fn is_type(name: &[u8]) -> bool
    ensures { result ≡ bytes_eq name.now (codes "Type") }
{
    name == b"Type".as_slice()
}

impl Machine {
    fn starts(&self, next: Lexeme) -> Result<Move, Cause>
        ensures { in_mode self.now ParserState.Start (lexeme next.entry) ≡ outcome result (below self.now) }
    {
        match next {
            Lexeme::Name(_) | Lexeme::Blank => Ok(self.stay(ParserState::Headed)),
            Lexeme::Sign(Sign::Bang) => Ok(self.stay(ParserState::Marked)),
            _ => Err(Cause::Syntax),
        }
    }

    fn marked(&self, next: Lexeme) -> Result<Move, Cause>
        ensures { in_mode self.now ParserState.Marked (lexeme next.entry) ≡ outcome result (below self.now) }
    {
        match next {
            Lexeme::Name(_) | Lexeme::Blank => Ok(self.stay(ParserState::Headed)),
            _ => Err(Cause::Syntax),
        }
    }

    fn headed(&self, next: Lexeme) -> Result<Move, Cause>
        requires { IsSpelled next }
        ensures { in_mode self.now ParserState.Headed (lexeme next.entry) ≡ outcome result (below self.now) }
    {
        match next {
            Lexeme::BinaryTag(_) | Lexeme::HexTag(_) => {
                if has_tag_bits(&next) {
                    Ok(self.stay(ParserState::Items(self.limits.items)))
                } else {
                    Err(Cause::Syntax)
                }
            }
            _ => self.items(self.limits.items, next),
        }
    }

    fn brace(&self, items: Option<u32>, next: Lexeme) -> Result<Move, Cause>
        ensures { in_mode self.now (ParserState.Brace items) (lexeme next.entry) ≡ outcome result (below self.now) }
    {
        match next {
            Lexeme::Name(_) => Ok(self.stay(ParserState::BraceName(items))),
            _ => self.apply(Side::Left(items), false, next),
        }
    }

    fn brace_name(&self, items: Option<u32>, next: Lexeme) -> Result<Move, Cause>
        ensures { in_mode self.now (ParserState.BraceName items) (lexeme next.entry) ≡ outcome result (below self.now) }
    {
        match next {
            Lexeme::Sign(Sign::Colon) => Ok(self.stay(ParserState::Kind(items))),
            _ => self.applied(Side::Left(items), false, next),
        }
    }

    fn kind(&self, items: Option<u32>, next: Lexeme) -> Result<Move, Cause>
        ensures { in_mode self.now (ParserState.Kind items) (lexeme next.entry) ≡ outcome result (below self.now) }
    {
        match next {
            Lexeme::Sign(Sign::Hash) => Ok(self.stay(ParserState::KindEnd(items))),
            Lexeme::Name(name) => {
                if is_type(name) {
                    Ok(self.stay(ParserState::KindEnd(items)))
                } else {
                    Err(Cause::Syntax)
                }
            }
            _ => Err(Cause::Syntax),
        }
    }

    fn kind_end(&self, items: Option<u32>, next: Lexeme) -> Result<Move, Cause>
        ensures { in_mode self.now (ParserState.KindEnd items) (lexeme next.entry) ≡ outcome result (below self.now) }
    {
        match next {
            Lexeme::Sign(Sign::CloseBrace) => Ok(self.stay(ParserState::Items(items))),
            _ => Err(Cause::Syntax),
        }
    }

    fn item_name(&self, items: Option<u32>, next: Lexeme) -> Result<Move, Cause>
        ensures { in_mode self.now (ParserState.ItemName items) (lexeme next.entry) ≡ outcome result (below self.now) }
    {
        match next {
            Lexeme::Sign(Sign::Colon) => {
                Ok(self.stay(ParserState::Term(Spot::Field(items), self.levels)))
            }
            _ => self.typed(items, next),
        }
    }

    fn item_blank(&self, items: Option<u32>, next: Lexeme) -> Result<Move, Cause>
        ensures { in_mode self.now (ParserState.ItemBlank items) (lexeme next.entry) ≡ outcome result (below self.now) }
    {
        match next {
            Lexeme::Sign(Sign::Colon) => {
                Ok(self.stay(ParserState::Term(Spot::Field(items), self.levels)))
            }
            _ => Err(Cause::Syntax),
        }
    }

    fn bit(&self, items: Option<u32>, next: Lexeme) -> Result<Move, Cause>
        ensures { in_mode self.now (ParserState.Bit items) (lexeme next.entry) ≡ outcome result (below self.now) }
    {
        match next {
            Lexeme::Number(Some(place)) => {
                if place <= 31 {
                    Ok(self.stay(ParserState::BitEnd(items)))
                } else {
                    Err(Cause::Syntax)
                }
            }
            _ => Err(Cause::Syntax),
        }
    }

    fn bit_end(&self, items: Option<u32>, next: Lexeme) -> Result<Move, Cause>
        ensures { in_mode self.now (ParserState.BitEnd items) (lexeme next.entry) ≡ outcome result (below self.now) }
    {
        match next {
            Lexeme::Sign(Sign::Question) => {
                Ok(self.stay(ParserState::Term(Spot::Guarded(items), self.levels)))
            }
            _ => Err(Cause::Syntax),
        }
    }

    fn named_result(&self, next: Lexeme) -> Result<Move, Cause>
        ensures { in_mode self.now ParserState.Result (lexeme next.entry) ≡ outcome result (below self.now) }
    {
        match next {
            Lexeme::Name(_) => Ok(self.stay(ParserState::Params(self.limits.params))),
            _ => Err(Cause::Syntax),
        }
    }

    fn params(&self, params: Option<u32>, next: Lexeme) -> Result<Move, Cause>
        ensures { in_mode self.now (ParserState.Params params) (lexeme next.entry) ≡ outcome result (below self.now) }
    {
        match begin_of(next) {
            Some(begin) => {
                let params = spend(params, Cause::TooManyParams)?;
                self.begins(begin, Spot::Param(params), self.levels)
            }
            None => self.ends_params(next),
        }
    }

    fn ends_params(&self, next: Lexeme) -> Result<Move, Cause>
        ensures { spec.params (bounds_of self.now) None None self.now.levels (below self.now) (lexeme next.entry)
            ≡ outcome result (below self.now) }
    {
        match next {
            Lexeme::Sign(Sign::Semicolon) => Ok(self.stay(ParserState::Start)),
            _ => Err(Cause::Syntax),
        }
    }

    /// Where the next lexeme leads.
    pub(crate) fn step(&self, next: Lexeme) -> Result<Move, Cause>
        requires { IsSpelled next }
        ensures { spec.step (bounds_of self.now) (state self.now) (lexeme next.entry)
            ≡ outcome result (below self.now) }
    {
        match self.mode {
            ParserState::Start => self.starts(next),
            ParserState::Marked => self.marked(next),
            ParserState::Headed => self.headed(next),
            ParserState::Items(items) => self.items(items, next),
            ParserState::Brace(items) => self.brace(items, next),
            ParserState::BraceName(items) => self.brace_name(items, next),
            ParserState::Kind(items) => self.kind(items, next),
            ParserState::KindEnd(items) => self.kind_end(items, next),
            ParserState::ItemName(items) => self.item_name(items, next),
            ParserState::ItemBlank(items) => self.item_blank(items, next),
            ParserState::Term(spot, inner) => self.term(begin_of(next), spot, inner),
            ParserState::Apply(side, starred) => self.apply(side, starred, next),
            ParserState::Applied(side, starred) => self.applied(side, starred, next),
            ParserState::Operated(side, starred) => self.operated(side, starred, next),
            ParserState::Typed(items) => self.typed(items, next),
            ParserState::Bit(items) => self.bit(items, next),
            ParserState::BitEnd(items) => self.bit_end(items, next),
            ParserState::Result => self.named_result(next),
            ParserState::Params(params) => self.params(params, next),
        }
    }
}
