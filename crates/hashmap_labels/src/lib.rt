//! Labels of a dictionary's edges.
#![tactic(auto)]

mod forms;
mod heads;
mod labels;
pub mod laws;
mod reading;

pub use forms::{Forms, LabelForm, choose, length_width};
pub use labels::{Label, LabelBits, LabelError};
pub use reading::{read_label, read_label_any};
