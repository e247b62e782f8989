//! Tests of the crates below the language: bits, sums, hashes, cells, bags, pools, dictionaries, numbers, values.
#![tactic(auto)]

#[cfg(test)]
mod bags;
#[cfg(test)]
mod bits;
#[cfg(test)]
mod cells;
#[cfg(test)]
mod dictionaries;
#[cfg(test)]
mod hashes;
#[cfg(test)]
mod labels;
#[cfg(test)]
mod names;
#[cfg(test)]
mod numbers;
#[cfg(test)]
mod parsed_texts;
#[cfg(test)]
mod pools;
#[cfg(test)]
mod values;
