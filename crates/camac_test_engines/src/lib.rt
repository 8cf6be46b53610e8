//! Tests of the engines, over readers and writers in memory. The worked rows are texts: tests/rows.
#![tactic(auto)]

#[cfg(test)]
mod faults;
#[cfg(test)]
mod live;
#[cfg(test)]
mod once;
#[cfg(test)]
mod run_faults;
