#![tactic(auto)]

#[cfg(test)]
mod bounded_lists;
#[cfg(test)]
mod column_lists;
#[cfg(test)]
mod dependency_sets;
#[cfg(test)]
mod join_types;
#[cfg(test)]
mod joins;
#[cfg(test)]
mod keys;
#[cfg(test)]
mod projections;
#[cfg(test)]
mod references;
#[cfg(test)]
mod samples;
#[cfg(test)]
mod texts;
