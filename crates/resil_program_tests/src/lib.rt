//! The tests of the program's crates: `resil_input`, `resil_heads`, `resil_words`, `resil_replay`,
//! `resil_chain`, `resil_weave` and `resil_driver`.
//!
//! A crate that has tests is proved twice, without them and with them. So these are in a crate that has
//! nothing else. `examples/` shows the text or the refusal for words and an input; here is what no example
//! can show: other readers and writers, values that no text has, and threads whose order may differ.
#![tactic(auto)]

#[cfg(test)]
mod growths;
#[cfg(test)]
mod heads;
#[cfg(test)]
mod shared;
#[cfg(test)]
mod streams;
#[cfg(test)]
mod texts;
#[cfg(test)]
mod threads;
