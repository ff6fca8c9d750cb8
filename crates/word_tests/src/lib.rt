// Cases that are run: the machine's printed examples beyond the proved figures, and others worked out by the rules.
#![tactic(auto)]

#[cfg(test)]
mod columns;
#[cfg(test)]
mod digits;
#[cfg(test)]
mod fields;
#[cfg(test)]
mod shifts;
#[cfg(test)]
mod sums;
