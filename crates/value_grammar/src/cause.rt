//! Causes of refusals.

/// Why a text writes no value. Where several causes stand at one place, the first of these is its refusal.
#[derive(Clone, Copy, Debug, PartialEq, Eq)]
pub enum Cause {
    /// One level of values or cells too many.
    DeepText,
    /// One value or cell too many.
    BulkText,
    /// A number, bits or a hidden part past its limit, or a cell that there is none of.
    Range,
    /// An entry of a map does not come after the one before it, or that one begins it.
    KeyOrder,
    /// No value goes on with what stands there, or the text ends too soon.
    Syntax,
}
