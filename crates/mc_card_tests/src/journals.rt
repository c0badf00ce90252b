// The journals tested on devices in memory, against the rule of stops written out by hand; and worked rows of
// the cost of a journal and of the meaning of a damaged one.

#[cfg(test)]
mod bench;
mod costs;
#[cfg(test)]
mod cuts;
mod damaged;
#[cfg(test)]
mod recoveries;
#[cfg(test)]
mod rule;
#[cfg(test)]
mod tapes;
