//! The syntax tree of a TL-B schema, and the definitions that tie it to a text: lexemes, productions, limits and
//! refusals. The language is that of the TON documentation on TL-B; where that leaves a point open, these
//! definitions fix it.
#![tactic(auto)]

pub mod laws;
mod lexeme;
mod sign;
mod text;
mod tree;

pub use bit_slice::{BitString, Name};
pub use lexeme::{Lexeme, has_tag_bits, lexeme_at, tag_bits};
pub use nat_solver::Op;
pub use sign::Sign;
pub use text::{canonical, show};
pub use tree::{Constructor, Expr, FieldType, Item, ParamKind, Schema, Tag};
