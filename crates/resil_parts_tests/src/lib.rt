//! The tests of the library's crates that start no thread: calls and retries, permits and bulkheads, layers, registries, chains,
//! the rule and its admission.
//!
//! A crate that has tests is proved twice, without them and with them. So the tests are in crates that have nothing else, and
//! the crates that they test have none.
#![tactic(auto)]

#[cfg(test)]
mod bulkhead;
#[cfg(test)]
mod call;
#[cfg(test)]
mod decor;
#[cfg(test)]
mod growths;
#[cfg(test)]
mod layers;
#[cfg(test)]
mod limits;
#[cfg(test)]
mod observed;
#[cfg(test)]
mod operator;
#[cfg(test)]
mod permit;
#[cfg(test)]
mod retry;
#[cfg(test)]
mod retry_observed;
#[cfg(test)]
mod rule;
#[cfg(test)]
mod shared;
#[cfg(test)]
mod wait;
