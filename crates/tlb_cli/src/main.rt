//! Gishqoret: reads the value of a TL-B type that a cell spells.
#![tactic(auto)]

use cli_refusals::Status;
use cli_run::run::run;
use std::alloc::AllocError;
use std::env;
use std::io::ErrorKind;
use std::process::ExitCode;
use tlb_edge::{RealShelf, RealSink, Sink};

// Why the words could not be had.
enum NoWords {
    NotText,
    NoMemory,
}

// The words of the command line without the program's name.
fn words(rt: &HostRuntime) -> Result<Vec<String>, NoWords> {
    let args = match env::args(rt) {
        Ok(args) => args,
        Err(error) if error.kind() == ErrorKind::OutOfMemory => return Err(NoWords::NoMemory),
        Err(_) => return Err(NoWords::NotText),
    };
    match args.skip(1).collect(rt.alloc()) {
        Ok(words) => Ok(words),
        Err(AllocError) => Err(NoWords::NoMemory),
    }
}

fn main(rt: HostRuntime) -> ExitCode {
    let mut out = RealSink::new(rt);
    let status = match words(&rt) {
        Ok(words) => run(
            rt.alloc(),
            words.as_slice(),
            &mut RealShelf::new(rt),
            &mut out,
        ),
        Err(NoWords::NotText) => match out.put(b"refused: usage\n") {
            Ok(()) => Status::Usage,
            Err(_) => Status::WriteFault,
        },
        Err(NoWords::NoMemory) => Status::NoMemory,
    };
    ExitCode::from(status.code())
}
