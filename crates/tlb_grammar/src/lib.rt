//! The schema that a text writes, or its first refusal. The grammar is that of the TON documentation on TL-B; where
//! that leaves a point open, the definitions of `tlb_syntax` fix it.
#![tactic(auto)]

mod build;
mod builder;
pub mod canonical_laws;
mod error;
pub mod laws;
mod open_sum;
mod parts;
mod read;
mod state;

pub use error::GrammarError;
pub use read::{read_schema, read_type};
pub use tlb_syntax::{
    BitString, Constructor, Expr, FieldType, Item, Name, Op, ParamKind, Schema, Tag, canonical,
    show,
};
