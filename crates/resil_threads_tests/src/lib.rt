//! Tests of what threads share: bulkheads by name, the pool for rows, with the exports of `resil_workers`, and the pool for your own jobs.
#![tactic(auto)]

#[cfg(test)]
mod answers;
#[cfg(test)]
mod as_long;
#[cfg(test)]
mod at_once;
#[cfg(test)]
mod batch;
#[cfg(test)]
mod bulkheads;
#[cfg(test)]
mod chains;
#[cfg(test)]
mod ends;
#[cfg(test)]
mod growths;
#[cfg(test)]
mod in_time;
#[cfg(test)]
mod many;
#[cfg(test)]
mod neighbours;
#[cfg(test)]
mod parts;
#[cfg(test)]
mod pool;
#[cfg(test)]
mod pool_text;
#[cfg(test)]
mod pools;
#[cfg(test)]
mod quiet;
#[cfg(test)]
mod render;
#[cfg(test)]
mod shared;
#[cfg(test)]
mod works;
