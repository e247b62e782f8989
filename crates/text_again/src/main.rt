//! Reads the text of a value, and prints the value without white space, or why the text is refused and where. The last
//! word is the name of the file.
#![tactic(auto)]

use std::alloc::Global;
use std::{env, fs, io, str};
use value_parse::{TextError, parse, print};

// The text of the value that a file writes, without white space.
fn text_again(alloc: Global, file: &[u8]) -> Result<Vec<u8>, TextError> {
    let value = parse(alloc, file)?;
    let text = print(alloc, &value)?;
    Ok(text)
}

fn main(rt: HostRuntime) -> io::Result<()> {
    let words: Vec<String> = env::args(&rt)?.collect(rt.alloc())?;
    let Some(name) = words.as_slice().last() else {
        return Ok(());
    };
    let file = fs::read(&rt, name.as_str())?;
    match text_again(rt.alloc(), file.as_slice()) {
        Ok(text) => match str::from_utf8(text.as_slice()) {
            Ok(text) => println!(rt; "{text}"),
            Err(_) => println!(rt; "no text"),
        },
        Err(error) => println!(rt; "refused: {error}"),
    }
}
