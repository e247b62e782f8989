//! What pruning a tree hides of a value, and what is known of a value with hidden parts: definitions alone.
#![tactic(auto)]

/// What is known of a path in a value with hidden parts.
#[derive(Clone, Copy, Debug, PartialEq, Eq)]
pub enum Knowledge {
    /// The path leads to a value.
    Known,
    /// The path leads to nothing.
    KnownAbsent,
    /// The path meets a hidden part, at its end too.
    NotKnown,
}
