//! What a value of a TL-B type is built to, and where it doesn't fit: definitions alone.
#![tactic(auto)]
