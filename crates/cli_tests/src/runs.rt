//! What no stored case shows: calls of the shelf and the sink that fail, limits, and the shelf and the sink that
//! never fail.
use cli_run::run::{run, run_honestly, run_surely};
use std::alloc::{AllocError, Global};
use std::test::Fail;
use tlb_edge::{MemShelf, MemSink, SureShelf, SureSink};

const UNIT: &str = "unit$_ = Unit;";

// A bag of the empty cell.
const EMPTY: &str = "b5ee9c72010101010002000000";

// A bag of a cell of the 16 bits a0f1.
const BITS: &str = "b5ee9c72010101010004000004a0f1";

// The words of a command line.
fn split(alloc: Global, line: &str) -> Result<Vec<String>, AllocError> {
    let mut words = Vec::new(alloc);
    for word in line.split_whitespace() {
        words.push(String::from_str(alloc, word)?)?;
    }
    Ok(words)
}

// The files `s`, a schema, `b`, a bag as text, and `r`, its raw bytes.
fn files(alloc: Global, schema: &str, bag: &str) -> Result<Vec<(String, Vec<u8>)>, AllocError> {
    let raw = match hex::decode(alloc, bag.as_bytes()) {
        Ok(raw) => raw,
        Err(_) => Vec::new(alloc),
    };
    let mut files = Vec::new(alloc);
    files.push((
        String::from_str(alloc, "s")?,
        schema.as_bytes().to_vec(alloc)?,
    ))?;
    files.push((String::from_str(alloc, "b")?, bag.as_bytes().to_vec(alloc)?))?;
    files.push((String::from_str(alloc, "r")?, raw))?;
    Ok(files)
}

// The status and the output of `run` over these files, where the call of the shelf and the put with these
// numbers fail (0: none).
fn answer(
    alloc: Global,
    line: &str,
    files: Vec<(String, Vec<u8>)>,
    failing_call: u32,
    failing_put: u32,
) -> Result<(u8, Vec<u8>), Fail> {
    let words = split(alloc, line)?;
    let mut shelf = MemShelf::new(files, [failing_call].to_vec(alloc)?);
    let mut sink = MemSink::new(alloc, 2000, [failing_put].to_vec(alloc)?)?;
    let status = run(alloc, words.as_slice(), &mut shelf, &mut sink);
    Ok((status.code(), sink.bytes().to_vec(alloc)?))
}

// A text, so many bytes of one kind, and another text.
fn padded(
    alloc: Global,
    prefix: &str,
    byte: &str,
    count: usize,
    after: &str,
) -> Result<String, Fail> {
    let mut text = String::from_str(alloc, prefix)?;
    for _ in 0..count {
        text.push_str(byte)?;
    }
    text.push_str(after)?;
    Ok(text)
}

// Each line: the words, the call of the shelf that fails (0: none), the status and the text. The calls are
// those of opening each file, of one read that gives it, and of one that answers 0.
#[test]
fn a_call_that_fails_names_its_file(rt: HostRuntime) -> Result<(), Fail> {
    let alloc = rt.alloc();
    for (line, failing, code, text) in [
        ("read s A b", 1, 2, "refused: read s\n"),
        ("read s A b", 2, 2, "refused: read s\n"),
        ("read s A b", 3, 2, "refused: read s\n"),
        ("read s A b", 4, 2, "refused: read b\n"),
        ("read s A b", 5, 2, "refused: read b\n"),
        ("read s A b", 6, 2, "refused: read b\n"),
        ("read s A b", 7, 0, "a{n:7,m:17}\n"),
        ("read s A gone", 0, 2, "refused: read gone\n"),
        ("read gone A b", 0, 2, "refused: read gone\n"),
        ("read b Nope gone", 0, 2, "refused: read gone\n"),
        ("hash b", 3, 2, "refused: read b\n"),
        ("", 0, 1, "refused: usage\n"),
        ("read s A", 0, 1, "refused: usage\n"),
        ("read s A b b", 0, 1, "refused: usage\n"),
        ("reads s A b", 0, 1, "refused: usage\n"),
        ("--help", 0, 1, "refused: usage\n"),
        ("--version", 0, 1, "refused: usage\n"),
    ] {
        let held = files(alloc, "a$101 n:uint8 m:uint5 = A;", BITS)?;
        let (status, output) = answer(alloc, line, held, failing, 0)?;
        assert_eq!(rt; status, code, "at {line}");
        assert_eq!(rt; output.as_slice(), text.as_bytes(), "at {line}");
    }
    Ok(())
}

// The line `refused: read NAME` with a name of 300 bytes has two pieces. Each line: the put that fails, the
// status, and how many bytes of the refusal were put.
#[test]
fn a_put_that_fails_leaves_the_pieces_before_it(rt: HostRuntime) -> Result<(), Fail> {
    let alloc = rt.alloc();
    let line = padded(alloc, "read s Unit ", "n", 300, "")?;
    let refusal = padded(alloc, "refused: read ", "n", 300, "\n")?;
    for (failing, code, count) in [(1, 3, 0), (2, 3, 256), (3, 2, 315)] {
        let held = files(alloc, UNIT, EMPTY)?;
        let (status, output) = answer(alloc, line.as_str(), held, 0, failing)?;
        assert_eq!(rt; status, code, "at put {failing}");
        assert_eq!(rt; output.len(), count, "at put {failing}");
        assert!(rt; refusal.as_bytes().starts_with(&output), "at put {failing}");
    }
    Ok(())
}

// The text of the value has 263 bytes, so two pieces.
#[test]
fn a_put_that_fails_leaves_the_beginning_of_a_value(rt: HostRuntime) -> Result<(), Fail> {
    let alloc = rt.alloc();
    let bag = padded(alloc, "b5ee9c720101010100810000fe", "00", 127, "")?;
    let value = padded(alloc, "a{x:x{", "0", 254, "}}\n")?;
    let held = files(alloc, "a$_ x:bits1016 = A;", bag.as_str())?;
    let (status, output) = answer(alloc, "read s A b", held, 0, 2)?;
    assert_eq!(rt; status, 3);
    assert_eq!(rt; output.len(), 256);
    assert!(rt; value.as_bytes().starts_with(&output));
    Ok(())
}

// Each line: how many spaces stand before the schema, the call of the shelf that fails (0: none), the status
// and the text. A schema of 1,048,576 bytes is read in 256 pieces, and one byte more is asked for.
#[test]
fn a_schema_of_one_byte_too_many_is_too_long(rt: HostRuntime) -> Result<(), Fail> {
    let alloc = rt.alloc();
    for (spaces, failing, code, text) in [
        (1_048_561, 0, 0, "unit{}\n"),
        (1_048_562, 0, 0, "unit{}\n"),
        (1_048_562, 258, 2, "refused: read s\n"),
        (1_048_562, 259, 2, "refused: read b\n"),
        (1_048_563, 0, 4, "refused: long s\n"),
        (1_048_563, 259, 4, "refused: long s\n"),
    ] {
        let schema = padded(alloc, "", " ", spaces, UNIT)?;
        let held = files(alloc, schema.as_str(), EMPTY)?;
        let (status, output) = answer(alloc, "read s Unit b", held, failing, 0)?;
        assert_eq!(rt; status, code, "at call {failing}");
        assert_eq!(rt; output.as_slice(), text.as_bytes(), "at call {failing}");
    }
    Ok(())
}

#[test]
fn a_word_of_one_byte_too_many_is_no_word(rt: HostRuntime) -> Result<(), Fail> {
    let alloc = rt.alloc();
    for (count, code) in [(1_048_576, 7), (1_048_577, 1)] {
        let line = padded(alloc, "read s ", "T", count, " b")?;
        let (status, _output) = answer(alloc, line.as_str(), files(alloc, UNIT, EMPTY)?, 0, 0)?;
        assert_eq!(rt; status, code, "at {count}");
    }
    Ok(())
}

#[test]
fn over_an_honest_outside_the_outcome_comes(rt: HostRuntime) -> Result<(), Fail> {
    let alloc = rt.alloc();
    let words = split(alloc, "read s Unit b")?;
    let mut shelf = MemShelf::new(files(alloc, UNIT, EMPTY)?, Vec::new(alloc));
    let mut sink = MemSink::new(alloc, 2000, Vec::new(alloc))?;
    let status = run_honestly(alloc, words.as_slice(), &mut shelf, &mut sink);
    assert_eq!(rt; status.code(), 0);
    assert_eq!(rt; sink.bytes(), b"unit{}\n".as_slice());
    let mut sure = SureShelf::new(files(alloc, UNIT, EMPTY)?);
    let status = run_surely(alloc, words.as_slice(), &mut sure, &mut SureSink::new());
    assert_eq!(rt; status.code(), 0);
    Ok(())
}
