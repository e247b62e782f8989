//! Tests of the crates of the language: tokens, syntax, kinds, the guard, tags and leads.
#![tactic(auto)]

#[cfg(test)]
mod dictionary_lines;
#[cfg(test)]
mod judgements;
#[cfg(test)]
mod lead_rows;
#[cfg(test)]
mod separations;
#[cfg(test)]
mod terms;
#[cfg(test)]
mod texts;
#[cfg(test)]
mod token_rows;
#[cfg(test)]
mod verdicts;
