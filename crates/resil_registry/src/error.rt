//! Errors of registries.
//!
//! All calls of a registry share one error type, and each variant has one cause. A call that
//! returns an error leaves the registry as it was.

use thiserror::Error;

/// Why a registry didn't do what a call wanted.
///
/// ```
/// match registry.obtain_with("letters", "small") {
///     Ok(id) => println!(rt; "instance {id}")?,
///     Err(RegistryError::NoSuchConfig) => println!(rt; "add `small` first")?,
///     Err(error) => println!(rt; "{error}")?,
/// }
/// ```
#[derive(Clone, Copy, Debug, PartialEq, Eq, Error)]
pub enum RegistryError {
    /// The configuration `default` is set when a registry is made, and no other may have its name.
    #[error("the name `default` is reserved")]
    ReservedName,
    /// No configuration has the name.
    #[error("no configuration has that name")]
    NoSuchConfig,
    /// A configuration has the name already.
    #[error("a configuration already has that name")]
    NameTaken,
    /// A name isn't 1 to 64 bytes of ASCII letters, digits, `-`, `_` and `.`.
    #[error("a name must be 1 to 64 bytes of ASCII letters, digits, `-`, `_` and `.`")]
    BadName,
    /// Out of memory.
    #[error("out of memory")]
    Memory,
}
