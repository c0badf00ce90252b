#![tactic(auto)]

//! Tests of the laboratory: decks with rules for one application, histories, digits, numbers in public bytes, sums.

#[cfg(test)]
mod decks;
#[cfg(test)]
mod digits;
#[cfg(test)]
mod forms;
#[cfg(test)]
mod histories;
#[cfg(test)]
mod moves;
#[cfg(test)]
mod sum_steps;
#[cfg(test)]
mod sums;
