//! The types.
use bit_slice::Name;
use sqlite_items::{Boxed, Items};

/// A type without variables: a form that spells something, with its numbers.
///
/// One that a schema closes has at most 4,096 nodes, so its levels are at most as many, and copying, counting and
/// dropping go down no further.
#[cycle(closed)]
#[derive(Drop)]
pub enum ClosedType {
    /// A declared type with its inputs in order; outputs have no place in it.
    Named(Name, Items<ClosedArg>),
    /// `#`
    Nat32,
    /// `##`
    Bits(u32),
    /// `#<`
    Below(u32),
    /// `#<=`
    UpTo(u32),
    Uint(u32),
    Int(u32),
    /// `bits`
    BitStr(u32),
    /// `^`
    Ref(Boxed<ClosedType>),
    /// `*`
    Repeat(u32, Boxed<ClosedType>),
    /// `Any` and `Cell`
    Whole,
    /// `Hashmap`, with the width of its keys
    Dict(u32, Boxed<ClosedType>),
    /// `HashmapE`, with the width of its keys
    DictE(u32, Boxed<ClosedType>),
}

/// An argument of a declared type.
#[cycle(closed)]
#[derive(Drop)]
pub enum ClosedArg {
    Nat(u32),
    Ty(ClosedType),
}
