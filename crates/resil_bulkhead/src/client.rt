//! A bulkhead with a pass of its own, for callers that call under it repeatedly.

ghost use Rattle.std.specs.Prelude.{◌≡◌, [], length, IsErr, IfErr, IsErrOf, IfOk};
ghost use Rattle.std.specs.Duration.{as_nanos};
ghost use Rattle.std.specs.List.{All};
ghost use Rattle.resil_permit.specs.Passes.{PassView, held_by, retired_by, own_events, IsSamePass};
ghost use Rattle.resil_permit.specs.Waits.{HasWaited, HasWaitedBy};
ghost use Rattle.resil_bulkhead.specs.Call.{IsCalled, attempt_in};

use crate::bulkhead::Bulkhead;
use crate::no_permit::NoPermit;
use resil_call::Call;
use resil_clock::Reads;
use resil_permit::Pass;
use std::alloc::{AllocError, Global};
use std::sync::Wait;
use std::time::Duration;

/// A caller under a bulkhead, with a pass of its own. It is one value for a thread, a worker or a
/// loop, and no clause needs to say that its pass belongs to this bulkhead.
///
/// ```
/// let mut prices = bulkhead.client();
/// for item in items {
///     let price = prices.call(&rt, &mut FromFn(|| ask(item)));
/// }
/// ```
#[derive(Drop)]
pub struct Client<'a> {
    bulkhead: &'a Bulkhead,
    pass: Pass,
    ghost source: { pass.source ≡ bulkhead.now.permits },
}

impl Bulkhead {
    /// Makes a client of this bulkhead, with a new pass.
    ///
    /// ```
    /// let mut prices = bulkhead.client();
    /// ```
    pub fn client(&self) -> Client<'_>
        ensures bulkhead { result.bulkhead.now ≡ self.now }
        ensures number { own_events result.pass ≡ [] }
        ensures held { held_by result.pass ≡ 0 }
        ensures retired { retired_by result.pass ≡ 0 }
    {
        Client {
            bulkhead: self,
            pass: self.new_pass(),
        }
    }

    /// Makes `count` clients of this bulkhead, each with a new pass.
    ///
    /// # Errors
    ///
    /// `AllocError` if out of memory.
    ///
    /// ```
    /// for mut prices in bulkhead.clients(rt.alloc(), 4)? {
    ///     let price = prices.call(&rt, &mut FromFn(|| ask(&neighbour)));
    /// }
    /// ```
    pub fn clients(&self, alloc: Global, count: usize) -> Result<Vec<Client<'_>>, AllocError>
        ensures count { IfOk result (λ clients. length clients.items ≡ count) }
        ensures each { IfOk result (λ clients. All (λ client. (client.bulkhead.now ≡ self.now) × (held_by client.pass ≡ 0) × (retired_by client.pass ≡ 0)) clients.items) }
    {
        let mut clients = Vec::new(alloc);
        for _ in 0..count {
            clients.push(self.client())?;
        }
        Ok(clients)
    }
}

impl Client<'_> {
    /// Calls the function once under a permit, like `Bulkhead::call`.
    ///
    /// # Errors
    ///
    /// `Full` if no permit is free; the function isn't called.
    pub fn call<R: Wait, C: Call>(&mut self, rt: &R, call: &mut C) -> Result<C::Output, NoPermit>
        requires can { C.CanCall call.old }
        ensures bulkhead { self.new.bulkhead ≡ self.old.bulkhead }
        ensures pass { IsSamePass self.old.pass self.new.pass }
        ensures executed { IsCalled C.IsAnswer self.old.pass self.new.pass call.old call.new result }
        ensures full { IfErr result (λ refused. refused ≡ NoPermit.Full) }
        ensures nobody { self.old.bulkhead.now.permits.max ≡ 0 → IsErr result }
        ensures held { held_by self.new.pass ≡ held_by self.old.pass }
        ensures retired { retired_by self.new.pass ≡ retired_by self.old.pass }
        ensures can { C.CanCall call.new }
    {
        self.bulkhead.call(rt, &mut self.pass, call)
    }

    /// Like `call`, but if no permit is free, waits for one for at most `longest`, like
    /// `Bulkhead::call_within`.
    ///
    /// # Errors
    ///
    /// `Full` if no permit came free; the function isn't called.
    ///
    /// ```
    /// let longest = Duration::from_millis(50);
    /// let seven = prices.call_within(&rt, longest, &mut FromFn(|| six + 1))?;
    /// ```
    pub fn call_within<R: Wait + Reads, C: Call>(
        &mut self,
        rt: &R,
        longest: Duration,
        call: &mut C,
    ) -> Result<C::Output, NoPermit>
        requires can { C.CanCall call.old }
        ensures bulkhead { self.new.bulkhead ≡ self.old.bulkhead }
        ensures pass { IsSamePass self.old.pass self.new.pass }
        ensures executed { (waited : PassView) × HasWaited (as_nanos longest) self.old.pass waited × IsCalled C.IsAnswer waited self.new.pass call.old call.new result }
        ensures by_the_clock { (waited : PassView) × HasWaitedBy (R.HasSaid rt.now) (as_nanos longest) self.old.bulkhead.now.permits.max self.old.pass waited (attempt_in result) × IsCalled C.IsAnswer waited self.new.pass call.old call.new result }
        ensures at_once { as_nanos longest ≡ 0 → IsCalled C.IsAnswer self.old.pass self.new.pass call.old call.new result }
        ensures full { IfErr result (λ refused. refused ≡ NoPermit.Full) }
        ensures nobody { self.old.bulkhead.now.permits.max ≡ 0 → IsErr result }
        ensures held { held_by self.new.pass ≡ held_by self.old.pass }
        ensures retired { retired_by self.new.pass ≡ retired_by self.old.pass }
        ensures can { C.CanCall call.new }
    {
        self.bulkhead.call_within(rt, &mut self.pass, longest, call)
    }

    /// Like `call`, but tries only once and never waits, like `Bulkhead::call_once`.
    ///
    /// # Errors
    ///
    /// `Full` if no permit is free, `Contended` if another pass came in between; the function isn't called.
    pub fn call_once<C: Call>(&mut self, call: &mut C) -> Result<C::Output, NoPermit>
        requires can { C.CanCall call.old }
        ensures bulkhead { self.new.bulkhead ≡ self.old.bulkhead }
        ensures pass { IsSamePass self.old.pass self.new.pass }
        ensures executed { IsCalled C.IsAnswer self.old.pass self.new.pass call.old call.new result }
        ensures nobody { self.old.bulkhead.now.permits.max ≡ 0 → IsErrOf result NoPermit.Full }
        ensures held { held_by self.new.pass ≡ held_by self.old.pass }
        ensures retired { retired_by self.new.pass ≡ retired_by self.old.pass }
        ensures can { C.CanCall call.new }
    {
        self.bulkhead.call_once(&mut self.pass, call)
    }
}
