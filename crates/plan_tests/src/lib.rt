//! Tests of the plan.
#![tactic(auto)]

#[cfg(test)]
mod choice_rows;
#[cfg(test)]
mod closing_rows;
#[cfg(test)]
mod plan_rows;
#[cfg(test)]
mod texts;
