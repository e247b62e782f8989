//! The shelf and the sink over the files and the standard output of the system.
ghost use Rattle.std.specs.Prelude.{◌≡◌, ◌≤◌, ◌<◌, ℕ, Option, None, Bool, false, is_ok, length, IfOk};
ghost use Rattle.tlb_edge.specs.Causes.{HasCause, counted, faults_after};
ghost use Rattle.tlb_edge.specs.Moves.{Gives};

use crate::shelf::{Failed, Shelf};
use crate::sink::Sink;
use std::io::Read;
use std::rt::Files;

/// The files of the system. It reports no content.
#[derive(Drop)]
pub struct RealShelf<R: Files> {
    rt: R,
    file: Option<R::File>,
    given: u64,
    opens: u64,
    faults: u64,
}

impl<R: Files> RealShelf<R> {
    ghost use Rattle.tlb_edge.specs.RealShelf.{some_open, given_of, opens_of, faults_of};

    /// A shelf of which no file is open and no call was made.
    pub fn new(rt: R) -> RealShelf<R>
        ensures closed { some_open result ≡ false }
        ensures given { given_of result ≡ 0 }
        ensures opens { opens_of result ≡ 0 }
        ensures faults { faults_of result ≡ 0 }
    {
        RealShelf {
            rt,
            file: None,
            given: 0,
            opens: 0,
            faults: 0,
        }
    }
}

impl<R: Files + Drop> Shelf for RealShelf<R> {
    ghost use Rattle.tlb_edge.specs.RealShelf.{some_open, given_of, opens_of, faults_of};

    ghost held = { λ _. None };

    ghost rest = { λ _. None };

    ghost is_open = { some_open };

    ghost given = { given_of };

    ghost opens = { opens_of };

    ghost reads = { λ _. None };

    ghost faults = { faults_of };

    fn open(&mut self, name: &str) -> Result<(), Failed>
        ensures is_open { some_open self.new ≡ is_ok result }
        ensures given { given_of self.new ≡ 0 }
        ensures opens { opens_of self.new ≡ counted (opens_of self.old) 1 }
        ensures cause { HasCause (faults_of self.old) (faults_of self.new) result }
        ensures faults { faults_of self.new ≡ faults_after (faults_of self.old) result }
    {
        self.opens = self.opens.saturating_add(1);
        self.given = 0;
        match std::fs::open(&self.rt, name) {
            Ok(file) => {
                self.file = Some(file);
                Ok(())
            }
            Err(_) => {
                self.file = None;
                self.faults = self.faults.saturating_add(1);
                Err(Failed)
            }
        }
    }

    fn read(&mut self, buf: &mut [u8]) -> Result<usize, Failed>
        ensures bound { IfOk result (λ n. n ≤ length buf.new) }
        ensures is_open { some_open self.new ≡ some_open self.old }
        ensures closed { some_open self.old ≡ false → IfOk result (λ n. n ≡ 0) }
        ensures given { Gives (given_of self.old) (given_of self.new) result }
        ensures opens { opens_of self.new ≡ opens_of self.old }
        ensures cause { HasCause (faults_of self.old) (faults_of self.new) result }
        ensures faults { faults_of self.new ≡ faults_after (faults_of self.old) result }
    {
        let count = match &mut self.file {
            Some(file) => match file.read(buf) {
                Ok(count) => count,
                Err(_) => {
                    self.faults = self.faults.saturating_add(1);
                    return Err(Failed);
                }
            },
            None => 0,
        };
        self.given = self.given.saturating_add(count as u64);
        Ok(count)
    }
}

/// The standard output. It reports no content.
#[derive(Drop)]
pub struct RealSink<P> {
    rt: P,
    faults: u64,
}

impl<P: Print> RealSink<P> {
    ghost use Rattle.tlb_edge.specs.RealSink.{faults_of};

    /// A sink of which no call was made.
    pub fn new(rt: P) -> RealSink<P>
        ensures { faults_of result ≡ 0 }
    {
        RealSink { rt, faults: 0 }
    }
}

impl<P: Print> Sink for RealSink<P> {
    ghost use Rattle.tlb_edge.specs.RealSink.{faults_of};

    ghost written = { λ _. None };

    ghost puts = { λ _. None };

    ghost faults = { faults_of };

    /// Writes the bytes piece by piece. A write that fails or takes nothing of a piece is a fault.
    fn put(&mut self, bytes: &[u8]) -> Result<(), Failed>
        ensures cause { HasCause (faults_of self.old) (faults_of self.new) result }
        ensures faults { faults_of self.new ≡ faults_after (faults_of self.old) result }
    {
        let mut rest = bytes;
        'pieces: while !rest.is_empty() {
            match self.rt.write_some(rest) {
                Ok(count) if count > 0 => rest = &rest[count..],
                _ => {
                    self.faults = self.faults.saturating_add(1);
                    return Err(Failed);
                }
            }
        }
        Ok(())
    }
}
