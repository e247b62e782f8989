//! The judge of a text's lexemes: the machine, with the counts of declarations.
ghost use Rattle.std.specs.Prelude.{◌≡◌, ◌+◌, ◌<◌, ◌^◌, map, IfOk, OnOk};
ghost use Rattle.tlb_syntax.specs.Lexeme.{lexeme};
ghost use Rattle.tlb_syntax.specs.Placed.{IsSpelled};
ghost use Rattle.tlb_syntax.specs.Written.{standard, unbounded};
ghost use Rattle.syntax_check.specs.Judge as verdicts;
ghost use Rattle.syntax_check.specs.Step.{bounds_of, state, below, after_move, stepped, stepped_freely};
ghost use Rattle.syntax_check.specs.Judged.{reported, reported_verdict, position, goes_to, start_of, may_end};

use crate::machine::{Cause, ParserState, Side};
use crate::step::{Change, Limits, Machine, Move};
use std::alloc::{AllocError, Global};
use tlb_memory::NoMemory;
use tlb_syntax::Lexeme;

/// A lexeme that can't stand where it does, or the end of a text that can't end there.
#[derive(Clone, Copy, Debug, PartialEq, Eq)]
pub struct Refusal {
    pub cause: Cause,
    /// The number of lexemes before it.
    pub place: u32,
}

/// What a text is to write.
#[derive(Clone, Copy)]
pub(crate) enum Whole {
    Schema,
    Word,
}

const MOST_LEVELS: u32 = 64;

const MOST_ITEMS: u32 = 255;

const MOST_PARAMS: u32 = 8;

const MOST_DECLARATIONS: usize = 4096;

const MOST_OF_ONE_TYPE: usize = 256;

#[derive(Drop)]
pub(crate) struct Judge<'a> {
    pub machine: Machine,
    /// How many lexemes were judged.
    pub place: u32,
    /// How many of them stand before the name of the declaration that the text is in.
    pub begun: u32,
    /// The types of the declarations, in the order of the text.
    pub names: Vec<&'a [u8]>,
    /// The limit that was met in the declaration that the text is in.
    pub met: Option<Refusal>,
}

impl Machine {
    fn new(alloc: Global, whole: Whole) -> Machine
        ensures limits { bounds_of result ≡ standard }
        ensures state { state result ≡ start_of whole }
    {
        Machine {
            limits: Limits {
                levels: Some(MOST_LEVELS),
                items: Some(MOST_ITEMS),
                params: Some(MOST_PARAMS),
            },
            mode: match whole {
                Whole::Schema => ParserState::Start,
                Whole::Word => ParserState::Apply(Side::Word, false),
            },
            levels: Some(MOST_LEVELS),
            open: Vec::new(alloc),
        }
    }

    fn awaits_name(&self) -> bool
        ensures { result ≡ verdicts.awaits_name (state self.now) }
    {
        matches!(self.mode, ParserState::Start | ParserState::Marked)
    }

    fn is_at_result(&self) -> bool
        ensures { result ≡ verdicts.is_result (state self.now) }
    {
        matches!(self.mode, ParserState::Result)
    }

    fn may_end(&self, whole: Whole) -> bool
        ensures { result ≡ may_end whole (state self.now) }
    {
        match whole {
            Whole::Schema => matches!(self.mode, ParserState::Start),
            Whole::Word => matches!(
                self.mode,
                ParserState::Applied(Side::Word, _) | ParserState::Operated(Side::Word, _)
            ),
        }
    }

    /// Goes where a step leads.
    fn go(&mut self, to: Move) -> Result<(), NoMemory>
        ensures led { OnOk result (state self.new ≡ after_move to (below self.old)) }
        ensures limits { self.new.limits ≡ self.old.limits }
    {
        match to.change {
            Change::Keep => {}
            Change::Open(frame) => self.open.push(frame).map_err(AllocError::from)?,
            Change::Close => {
                self.open.pop();
            }
        }
        self.mode = to.mode;
        self.levels = to.levels;
        Ok(())
    }
}

impl<'a> Judge<'a> {
    pub(crate) fn new(alloc: Global, whole: Whole) -> Judge<'a>
        ensures { position result ≡ verdicts.position_at standard (start_of whole) }
    {
        Judge {
            machine: Machine::new(alloc, whole),
            place: 0,
            begun: 0,
            names: Vec::new(alloc),
            met: None,
        }
    }

    fn refusal(&self, cause: Cause) -> Refusal
        ensures { reported result ≡ (cause, self.now.place) }
    {
        Refusal {
            cause,
            place: self.place,
        }
    }

    // How many declarations are of the type.
    fn count_of(&self, name: &[u8]) -> usize
        ensures { result ≡ verdicts.count_of name.now (map (λ x. x.now) self.now.names.items) }
    {
        self.names.iter().filter(|other| **other == name).count()
    }

    // A name that begins a declaration: the limit that was met before it, or one declaration too many.
    fn counted(&self) -> Option<Refusal>
        ensures { reported_verdict result ≡ verdicts.counted (position self.now) }
    {
        if !self.machine.awaits_name() {
            return None;
        }
        match self.met {
            Some(met) => Some(met),
            None if self.names.len() == MOST_DECLARATIONS => Some(self.refusal(
                Cause::TooManyConstructors,
            )),
            None => None,
        }
    }

    // After a whole result: one declaration of its type too many, or the limit that was met in it.
    fn judged_result(&self, name: &[u8]) -> Option<Refusal>
        ensures { reported_verdict result ≡ verdicts.judged_result (position self.now) name.now }
    {
        if self.count_of(name) == MOST_OF_ONE_TYPE {
            Some(Refusal {
                cause: Cause::TooManyConstructors,
                place: self.begun,
            })
        } else {
            self.met
        }
    }

    fn judged_name(&self, next: Lexeme) -> Option<Refusal>
        ensures { reported_verdict result ≡ verdicts.judged_name (position self.now) (lexeme next.entry) }
    {
        match next {
            Lexeme::Name(name) => {
                if self.machine.is_at_result() {
                    self.judged_result(name)
                } else {
                    self.counted()
                }
            }
            Lexeme::Blank => self.counted(),
            _ => None,
        }
    }

    // Keeps the type of the declaration.
    fn keep_name(&mut self, next: Lexeme<'a>) -> Result<(), NoMemory>
        ensures { OnOk result (position self.new
            ≡ record (position self.old) { names = verdicts.names_with (position self.old) (lexeme next.entry) }) }
    {
        match next {
            Lexeme::Name(name) => {
                if self.machine.is_at_result() {
                    self.names.push(name).map_err(AllocError::from)?;
                }
                Ok(())
            }
            _ => Ok(()),
        }
    }

    fn go_on(&mut self, next: Lexeme<'a>, to: Move) -> Result<(), NoMemory>
        requires { self.old.place + 1 < 2 ^ 32 }
        ensures { OnOk result (position self.new
            ≡ verdicts.onward (position self.old) (lexeme next.entry) (bounds_of self.old.machine)
            (reported_verdict self.old.met) (after_move to (below self.old.machine))) }
    {
        self.keep_name(next)?;
        if self.machine.awaits_name() {
            self.begun = self.place;
        }
        self.machine.go(to)?;
        self.place += 1;
        Ok(())
    }

    // The limit that was met already, or else that nothing goes on with the next lexeme.
    fn stop(&self) -> Refusal
        ensures { reported result ≡ verdicts.met_or (reported_verdict self.now.met) (Cause.Syntax, self.now.place) }
    {
        self.met.unwrap_or(self.refusal(Cause::Syntax))
    }

    // After a limit the declaration goes on, to its result or to the first lexeme that nothing goes on with.
    fn go_beyond(&mut self, why: Cause, next: Lexeme<'a>) -> Result<Option<Refusal>, NoMemory>
        requires spelled { IsSpelled next }
        requires room { self.old.place + 1 < 2 ^ 32 }
        ensures { IfOk result (λ found. verdicts.freed (position self.old) (lexeme next.entry) why
            (stepped_freely self.old.machine (lexeme next.entry))
            ≡ goes_to found (position self.new)) }
    {
        let refusal = self.refusal(why);
        self.machine.lift_limits();
        match self.machine.step(next) {
            Ok(to) => {
                self.met = Some(refusal);
                self.go_on(next, to)?;
                Ok(None)
            }
            Err(_) => Ok(Some(refusal)),
        }
    }

    fn step(&mut self, next: Lexeme<'a>) -> Result<Option<Refusal>, NoMemory>
        requires spelled { IsSpelled next }
        requires room { self.old.place + 1 < 2 ^ 32 }
        ensures { IfOk result (λ found. verdicts.after_step (position self.old) (lexeme next.entry)
            (stepped self.old.machine (lexeme next.entry))
            ≡ goes_to found (position self.new)) }
    {
        match self.machine.step(next) {
            Ok(to) => {
                self.go_on(next, to)?;
                Ok(None)
            }
            Err(Cause::Syntax) => Ok(Some(self.stop())),
            Err(why) => self.go_beyond(why, next),
        }
    }

    /// One lexeme further.
    pub(crate) fn advance(&mut self, next: Lexeme<'a>) -> Result<Option<Refusal>, NoMemory>
        requires spelled { IsSpelled next }
        requires room { self.old.place + 1 < 2 ^ 32 }
        ensures { IfOk result (λ found. verdicts.advance (position self.old) (lexeme next.entry)
            ≡ goes_to found (position self.new)) }
    {
        match self.judged_name(next) {
            Some(refusal) => Ok(Some(refusal)),
            None => self.step(next),
        }
    }

    /// At the end of the text.
    pub(crate) fn finish(&self, whole: Whole) -> Option<Refusal>
        ensures { reported_verdict result ≡ verdicts.finish (may_end whole) (position self.now) }
    {
        if self.machine.may_end(whole) {
            self.met
        } else {
            Some(self.met.unwrap_or(self.refusal(Cause::Syntax)))
        }
    }
}
