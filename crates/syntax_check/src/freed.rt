//! What goes on after a limit: the machine without its counts.
ghost use Rattle.std.specs.Prelude.{◌≡◌, map};
ghost use Rattle.tlb_syntax.specs.Written.{unbounded};
ghost use Rattle.syntax_check.specs.Judge.{free_side, free_spot, free_mode, free_frame, free};
ghost use Rattle.syntax_check.specs.Step.{bounds_of, state};

use crate::machine::{Frame, ParserState, Side, Spot};
use crate::step::{Limits, Machine};

impl Side {
    fn freed(self) -> Side
        ensures { result ≡ free_side self }
    {
        match self {
            Side::Paren => Side::Paren,
            Side::Left(_) => Side::Left(None),
            Side::Right(_) => Side::Right(None),
            Side::Word => Side::Word,
        }
    }
}

impl Spot {
    fn freed(self) -> Spot
        ensures { result ≡ free_spot self }
    {
        match self {
            Spot::Operand(side, starred) => Spot::Operand(side.freed(), starred),
            Spot::Argument(side, starred) => Spot::Argument(side.freed(), starred),
            Spot::Width(side, starred) => Spot::Width(side.freed(), starred),
            Spot::Field(_) => Spot::Field(None),
            Spot::Guarded(_) => Spot::Guarded(None),
            Spot::Param(_) => Spot::Param(None),
        }
    }
}

impl ParserState {
    fn freed(self) -> ParserState
        ensures { result ≡ free_mode self }
    {
        match self {
            ParserState::Start => ParserState::Start,
            ParserState::Marked => ParserState::Marked,
            ParserState::Headed => ParserState::Headed,
            ParserState::Items(_) => ParserState::Items(None),
            ParserState::Brace(_) => ParserState::Brace(None),
            ParserState::BraceName(_) => ParserState::BraceName(None),
            ParserState::Kind(_) => ParserState::Kind(None),
            ParserState::KindEnd(_) => ParserState::KindEnd(None),
            ParserState::ItemName(_) => ParserState::ItemName(None),
            ParserState::ItemBlank(_) => ParserState::ItemBlank(None),
            ParserState::Term(spot, _) => ParserState::Term(spot.freed(), None),
            ParserState::Apply(side, starred) => ParserState::Apply(side.freed(), starred),
            ParserState::Applied(side, starred) => ParserState::Applied(side.freed(), starred),
            ParserState::Operated(side, starred) => ParserState::Operated(side.freed(), starred),
            ParserState::Typed(_) => ParserState::Typed(None),
            ParserState::Bit(_) => ParserState::Bit(None),
            ParserState::BitEnd(_) => ParserState::BitEnd(None),
            ParserState::Result => ParserState::Result,
            ParserState::Params(_) => ParserState::Params(None),
        }
    }
}

impl Frame {
    fn freed(self) -> Frame
        ensures { result ≡ free_frame self }
    {
        match self {
            Frame::Paren(spot, _) => Frame::Paren(spot.freed(), None),
            Frame::Record(spot, _) => Frame::Record(spot.freed(), None),
        }
    }
}

fn free_all(frames: &mut [Frame])
    ensures { frames.new ≡ map free_frame frames.old }
{
    'frames: for frame in frames.iter_mut() {
        *frame = frame.freed();
    }
}

impl Machine {
    /// Any number of levels, items and parameters may come from now on.
    pub(crate) fn lift_limits(&mut self)
        ensures lifted { bounds_of self.new ≡ unbounded }
        ensures freed { state self.new ≡ free (state self.old) }
    {
        self.limits = Limits {
            levels: None,
            items: None,
            params: None,
        };
        self.mode = self.mode.freed();
        self.levels = None;
        free_all(&mut self.open);
    }
}
