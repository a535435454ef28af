//! The tests of the crates of requests and settings, each module those of one subject: they stand here at the top, so that a
//! crate below is proved and built once.
#![tactic(auto)]

#[cfg(test)]
mod envelopes;
#[cfg(test)]
mod queue_lists;
#[cfg(test)]
mod replies;
#[cfg(test)]
mod routes;
#[cfg(test)]
mod schedules;
#[cfg(test)]
mod settings;
#[cfg(test)]
mod tables;
#[cfg(test)]
mod wire;
#[cfg(test)]
mod written;
