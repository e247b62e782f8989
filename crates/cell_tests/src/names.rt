//! Names, and the answer for memory that was not given.
use bit_slice::{Name, is_name};
use std::alloc::AllocError;
use tlb_memory::NoMemory;

static GOOD: [&str; 5] = ["a", "Z9_x", "_", "_1", "_10"];

static BAD: [&str; 9] = ["x{", "", "9a", "_0", "_01", "_a", "__", "a-b", "a\u{e9}"];

#[test]
fn names_have_their_form(rt: HostRuntime) {
    for text in GOOD.iter() {
        assert!(rt; is_name(text.as_bytes()), "at {text}");
    }
    for text in BAD.iter() {
        assert!(rt; !is_name(text.as_bytes()), "at {text}");
    }
}

#[test]
fn a_copy_of_a_name_is_the_same(rt: HostRuntime) {
    let text = b"hm_edge".as_slice();
    assert!(rt; is_name(text));
    let name = Name::new(rt.alloc(), text).expect(&rt, "memory");
    let copy = name.copy(rt.alloc()).expect(&rt, "memory");
    assert!(rt; name.text() == text && copy.same(&name) && copy == name);
    assert!(rt; NoMemory::from(AllocError) == NoMemory);
}
