//! What a short call returns, with the visitor that the call made and that saw it.
ghost use Rattle.std.specs.Prelude.{◌≡◌};

use crate::executor::Visitor;
use resil_rule::Record;
use std::ops::Deref;

/// What a call returns, with the visitor that the call made for itself and that has seen it. Reading it gives the value. It takes no
/// more memory than the value.
///
/// ```
/// let numbers = pool.numbers(&rt);
/// println!(rt; "{} wait, {} run", numbers.waiting, numbers.running)?;
/// let joined = pool.join_for(&rt, Duration::from_secs(2)).into_value();
/// ```
#[derive(Drop)]
pub struct Seen<T: Drop, W: Drop, H: Record> {
    /// The value that the call returns.
    pub value: T,
    /// The visitor. Contracts see in it to which history the value belongs, and that it was seen in a turn at this pool.
    pub visitor: Visitor<W, H>,
}

impl<T: Drop, W: Drop, H: Record> Deref for Seen<T, W, H> {
    type Target = T;

    fn deref(&self) -> &T
        ensures { result.now ≡ self.now.value }
    {
        &self.value
    }
}

impl<T: Drop, W: Drop, H: Record> Seen<T, W, H> {
    /// The value, without the visitor.
    ///
    /// ```
    /// let page = PoolText { name: "orders", numbers: pool.numbers(&rt).into_value() };
    /// ```
    pub fn into_value(self) -> T
        ensures { result ≡ self.value }
    {
        let Seen { value, visitor: _ } = self;
        value
    }
}
