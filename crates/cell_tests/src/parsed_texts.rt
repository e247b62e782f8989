//! Texts of values that are parsed, and those that are refused.
use std::alloc::Global;
use std::process::Abort;
use value_parse::{TextError, parse, print};

// The text of a whole message.
const MESSAGE: &str =
    "message{info:int_msg_info{ihr_disabled:bool_true{},bounce:bool_true{},bounced:bool_false{},\
src:addr_std{anycast:nothing{},workchain_id:0,\
address:x{1111111111111111111111111111111111111111111111111111111111111111}},\
dest:addr_std{anycast:nothing{},workchain_id:0,\
address:x{2222222222222222222222222222222222222222222222222222222222222222}},\
value:currencies{grams:nanograms{amount:var_uint{len:4,value:1000000000}},other:extra_currencies{dict:<>}},\
ihr_fee:nanograms{amount:var_uint{len:0,value:0}},fwd_fee:nanograms{amount:var_uint{len:0,value:0}},\
created_lt:0,created_at:0},init:just{value:left{value:_1{split_depth:nothing{},special:nothing{},\
code:just{value:^(x{FF00})},data:just{value:^(x{})},library:nothing{}}}},body:right{value:^(x{00000000})}}";

// The text of an update, whose layout says nothing of the hashes.
const UPDATE: &str = "!(x{041111111111111111111111111111111111111111111111111111111111111111\
222222222222222222222222222222222222222222222222222222222222222200000000},(x{}),(x{}))";

// A text, and what is printed of its value.
static TEXTS: [(&str, &str); 30] = [
    ("0", "0"),
    ("-0", "-0"),
    (" \t\r\n-17 ", "-17"),
    (
        "340282366920938463463374607431768211455",
        "340282366920938463463374607431768211455",
    ),
    ("x{}", "x{}"),
    ("x{D2C_}", "x{D2C_}"),
    ("a{}", "a{}"),
    ("xx{}", "xx{}"),
    ("_{}", "_{}"),
    ("_10{x:1}", "_10{x:1}"),
    ("{a:1, b : ~,x:{}}", "{a:1,b:~,x:{}}"),
    ("[]", "[]"),
    ("[1 , [2],^ ^3,~]", "[1,[2],^^3,~]"),
    (
        "?00000000000000000000000000000000000000000000000000000000000000ff.65535",
        "?00000000000000000000000000000000000000000000000000000000000000ff.65535",
    ),
    ("<>", "<>"),
    ("< x{2_}:1,x{6_} : ^~>", "<x{2_}:1,x{6_}:^~>"),
    (
        "<x{2_}?00000000000000000000000000000000000000000000000000000000000000ff.0,x{6_}:1>",
        "<x{2_}?00000000000000000000000000000000000000000000000000000000000000ff.0,x{6_}:1>",
    ),
    (
        "<x{2_}:1,x{6_} ?00000000000000000000000000000000000000000000000000000000000000ff.0>",
        "<x{2_}:1,x{6_}?00000000000000000000000000000000000000000000000000000000000000ff.0>",
    ),
    ("(x{})", "(x{})"),
    (
        "( x{1} ,(x{2} , (x{3})),(x{}))",
        "(x{1},(x{2},(x{3})),(x{}))",
    ),
    ("%(x{D2C_},(x{}))", "%(x{D2C_},(x{}))"),
    (
        "%(x{},(x{}),(x{}),(x{}),(x{}),(x{}))",
        "%(x{},(x{}),(x{}),(x{}),(x{}),(x{}))",
    ),
    (
        "! (x{021111111111111111111111111111111111111111111111111111111111111111})",
        "!(x{021111111111111111111111111111111111111111111111111111111111111111})",
    ),
    ("[(x{},(x{})),%(x{}),~,x{}]", "[(x{},(x{})),%(x{}),~,x{}]"),
    ("a{b:c{d:[^<x{}:(x{})>]}}", "a{b:c{d:[^<x{}:(x{})>]}}"),
    (
        "!(x{010111111111111111111111111111111111111111111111111111111111111111110400})",
        "!(x{010111111111111111111111111111111111111111111111111111111111111111110400})",
    ),
    (
        "(x{},!(x{0101111111111111111111111111111111111111111111111111111111111111111103FF}))",
        "(x{},!(x{0101111111111111111111111111111111111111111111111111111111111111111103FF}))",
    ),
    (
        "!(x{0311111111111111111111111111111111111111111111111111111111111111110000},(x{}))",
        "!(x{0311111111111111111111111111111111111111111111111111111111111111110000},(x{}))",
    ),
    (UPDATE, UPDATE),
    (MESSAGE, MESSAGE),
];

fn shown(rt: &impl Abort, error: TextError) -> (&'static str, u64) {
    match error {
        TextError::Syntax(place) => ("Syntax", place),
        TextError::Range(place) => ("Range", place),
        TextError::KeyOrder(place) => ("KeyOrder", place),
        TextError::DeepText(place) => ("DeepText", place),
        TextError::BulkText(place) => ("BulkText", place),
        TextError::NoMemory => {
            assert!(rt; false, "memory");
            ("NoMemory", 0)
        }
    }
}

#[test]
fn texts_write_values(rt: HostRuntime) {
    for (text, printed) in TEXTS.iter() {
        match parse(rt.alloc(), text.as_bytes()) {
            Ok(value) => {
                let found = print(rt.alloc(), &value).expect(&rt, "memory");
                assert!(rt; found.as_slice() == printed.as_bytes(), "at {text}");
            }
            Err(_) => assert!(rt; false, "refused: {text}"),
        }
    }
}

// A text, the cause of its refusal and the place.
static REFUSED: [(&str, &str, u64); 45] = [
    ("", "Syntax", 0),
    ("  ", "Syntax", 2),
    ("x", "Syntax", 0),
    ("x {}", "Syntax", 0),
    ("[1, x {}]", "Syntax", 4),
    ("a", "Syntax", 1),
    ("a ", "Syntax", 2),
    ("_0{}", "Syntax", 1),
    ("01", "Syntax", 1),
    ("1 1", "Syntax", 2),
    ("-", "Syntax", 0),
    ("- 1", "Syntax", 0),
    ("[1,]", "Syntax", 3),
    ("[,1]", "Syntax", 1),
    ("[1", "Syntax", 2),
    ("{a}", "Syntax", 2),
    ("{a:}", "Syntax", 3),
    ("{a:1,}", "Syntax", 5),
    ("{1:1}", "Syntax", 1),
    ("<x{}>", "Syntax", 4),
    ("<x{}:>", "Syntax", 5),
    ("<1:1>", "Syntax", 1),
    ("^", "Syntax", 1),
    ("%1", "Syntax", 1),
    ("%!(x{})", "Syntax", 1),
    ("!x{}", "Syntax", 1),
    ("(1)", "Syntax", 1),
    ("(x{},1)", "Syntax", 5),
    ("x{8_}", "Syntax", 0),
    ("x{a}", "Syntax", 0),
    ("?00", "Syntax", 0),
    ("340282366920938463463374607431768211456", "Range", 0),
    ("1 340282366920938463463374607431768211456", "Range", 2),
    (
        "{?00000000000000000000000000000000000000000000000000000000000000ff.65536",
        "Range",
        1,
    ),
    (" (x{},(x{}),(x{}),(x{}),(x{}),(x{}))", "Range", 1),
    ("! (x{})", "Range", 2),
    ("[!(x{05})]", "Range", 2),
    (
        "!(x{010111111111111111111111111111111111111111111111111111111111111111110401})",
        "DeepText",
        1,
    ),
    (
        "(x{},!(x{010111111111111111111111111111111111111111111111111111111111111111110400}))",
        "DeepText",
        0,
    ),
    (
        "[(x{},(x{},!(x{0101111111111111111111111111111111111111111111111111111111111111111103FF})))]",
        "DeepText",
        1,
    ),
    (
        "(x{},!(x{010111111111111111111111111111111111111111111111111111111111111111110400}),(x{}),(x{}),(x{}),(x{}))",
        "DeepText",
        0,
    ),
    (
        "!(x{05},!(x{010111111111111111111111111111111111111111111111111111111111111111110400}))",
        "Range",
        1,
    ),
    ("<x{6_}:1, x{2_}:1>", "KeyOrder", 10),
    ("<x{2_}:1,x{2_}:1>", "KeyOrder", 9),
    ("<x{2_}:1,x{3}:1>", "KeyOrder", 9),
];

fn refused(rt: &impl Abort, alloc: Global, text: &[u8]) -> (&'static str, u64) {
    match parse(alloc, text) {
        Ok(_) => ("Ok", 0),
        Err(error) => shown(rt, error),
    }
}

#[test]
fn texts_are_refused(rt: HostRuntime) {
    for (text, cause, place) in REFUSED.iter() {
        let found = refused(&rt, rt.alloc(), text.as_bytes());
        assert!(rt; found.0 == *cause && found.1 == *place, "at {text}");
    }
}

// A text with one part so many times, between others.
fn repeated(
    rt: &impl Abort,
    alloc: Global,
    before: &str,
    part: &str,
    count: usize,
    after: &str,
) -> Vec<u8> {
    let mut text = Vec::new(alloc);
    text.extend_from_slice(before.as_bytes())
        .expect(rt, "memory");
    for _ in 0..count {
        text.extend_from_slice(part.as_bytes()).expect(rt, "memory");
    }
    text.extend_from_slice(after.as_bytes())
        .expect(rt, "memory");
    text
}

// What comes before, a part and how many of it, what comes after, and the refusal.
static LONG: [(&str, &str, usize, &str, &str, u64); 21] = [
    ("", "^", 2303, "~", "Ok", 0),
    ("", "^", 2304, "~", "DeepText", 2304),
    ("", "^", 2304, "x ", "Syntax", 2304),
    ("", "[", 2304, "]", "Syntax", 2305),
    ("", "[", 2304, "1", "DeepText", 2304),
    ("", "[", 2305, "", "DeepText", 2304),
    ("", "(x{},", 1025, "(", "DeepText", 5125),
    ("", "(x{},", 1025, "1", "Syntax", 5125),
    ("", "(x{},", 1025, "!(x{})", "DeepText", 5125),
    ("%(x{},", "(x{},", 1025, "(x{})", "DeepText", 5131),
    ("[", "1,", 1_048_574, "1]", "Ok", 0),
    ("[", "1,", 1_048_576, "", "BulkText", 2_097_151),
    ("[", "(x{}),", 262_143, "(x{})]", "Ok", 0),
    ("[", "(x{}),", 262_144, "(x{})]", "BulkText", 1_572_865),
    ("%(x{}", ",(x{})", 262_144, ")", "Ok", 0),
    ("%(x{}", ",(x{})", 262_145, ")", "BulkText", 1_572_870),
    ("x{", "0", 255, "1_}", "Ok", 0),
    ("x{", "0", 256, "}", "Range", 0),
    ("<x{2_}:1,x{", "0", 255, "}:1>", "KeyOrder", 9),
    ("<x{2_}:1,x{", "0", 256, "}:1>", "Range", 9),
    (
        "",
        "^",
        2304,
        "340282366920938463463374607431768211456",
        "DeepText",
        2304,
    ),
];

#[test]
fn long_texts_are_refused(rt: HostRuntime) {
    for (before, part, count, after, cause, place) in LONG.iter() {
        let text = repeated(&rt, rt.alloc(), before, part, *count, after);
        let found = refused(&rt, rt.alloc(), text.as_slice());
        assert!(rt;
            found.0 == *cause && found.1 == *place,
            "{before}, {count} of {part} and {after}"
        );
    }
}

#[test]
fn cells_stand_in_one_another(rt: HostRuntime) {
    let mut text = repeated(&rt, rt.alloc(), "", "(x{},", 1024, "(x{}");
    let ends = repeated(&rt, rt.alloc(), "", ")", 1025, "");
    text.extend_from_slice(ends.as_slice())
        .expect(&rt, "memory");
    assert!(rt; refused(&rt, rt.alloc(), text.as_slice()).0 == "Ok");
}
