//! What the program does with the words of a command line, over any source of files and any output.
#![tactic(auto)]

mod answer;
pub mod laws;
pub mod run;
