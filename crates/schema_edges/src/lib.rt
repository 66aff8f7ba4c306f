#![tactic(auto)]

#[cfg(test)]
mod lookups;
#[cfg(test)]
mod names_and_sizes;
