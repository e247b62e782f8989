//! What the rules on a TL-B schema's kinds and its guard speak of: names of the language, the kinds of parameters,
//! forms of expressions, names in scope, what is known, and the types of a schema. The language is that of the TON
//! documentation on TL-B; where that leaves a point open, the definitions of this crate fix it.
#![tactic(auto)]

mod kind;
pub mod laws;
mod numbers;
mod outs;
mod scope;
mod shape;
mod shown;
mod types;
mod variables;
mod words;

pub use kind::{GREATEST, TermKind, has_outputs, kind_of, kinds};
pub use numbers::{closed, is_beyond};
pub use outs::{add_known, sought};
pub use scope::{Binding, Meaning, declares, field_name, is_among, meaning_in};
pub use shape::{
    bare_name, is_field_of_numbers, is_literal, is_of_numbers, is_out, out_name, variable_of,
};
pub use shown::{Shown, is_unnamed, show_item};
pub use types::{Declared, Sort, TypeNamed, Types, no_type};
pub use variables::{add_variable, inputs};
pub use words::{Family, WordClass, is_built_in, is_dictionary, is_wide, word_class};
