use bit_slice::Name;

/// One part of a path to an item.
#[derive(Debug, Drop)]
pub enum Part {
    /// A field by its name; the first unnamed field of a record is `_`, the k-th `_k`.
    Named(Name),
    /// A constraint by its place among the items of its record, from 1.
    Check(u32),
    /// The tag of a constructor.
    Tag,
    /// The result of a constructor.
    Result,
}
