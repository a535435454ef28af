//! The tests of the crates of the store, each module those of one crate: they stand here at the top, so that a crate below is
//! proved and built once.
#![tactic(auto)]

#[cfg(test)]
mod books;
#[cfg(test)]
mod files;
#[cfg(test)]
mod locks;
#[cfg(test)]
mod order;
#[cfg(test)]
mod permits;
#[cfg(test)]
mod records;
#[cfg(test)]
mod tables;
#[cfg(test)]
mod types;
#[cfg(test)]
mod words;
