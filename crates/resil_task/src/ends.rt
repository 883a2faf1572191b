//! The two ends of what one thread passes to another, once.

ghost use Rattle.std.specs.Prelude.{◌≡◌, true, false, IfOk, IfErr};
ghost use Rattle.std.specs.Arc.{arc_value};
ghost use Rattle.std.specs.Duration.{as_nanos};
ghost use Rattle.resil_clock.specs.Waits.{IsOutOfTime};

use crate::mailbox::Mailbox;
use counted_slot::Fits;
use resil_clock::Reads;
use std::alloc::{AllocError, Global};
use std::marker::Model;
use std::sync::{Arc, Wait};
use std::time::Duration;

/// The receiving end of a value that another thread sends once. It may be dropped at any time. Contracts see its
/// tag: what an answer has to fit.
///
/// ```
/// let (half_to, half) = one_shot::<Half>(alloc, &30)?;
/// half_to.reply(Half(15));
/// let half = half.wait(&rt);
/// ```
#[derive(Drop)]
pub struct Receiver<X: Fits> {
    mailbox: Arc<Mailbox<X>>,
}

impl<X: Fits> Model for Receiver<X> {
    ghost use Rattle.std.specs.Arc.{arc_value};

    ghost Value = { X.Tag };

    ghost view = { λ receiver. arc_value receiver.mailbox };
}

// The sending end for a `Receiver`. It can't be dropped, and it is given up only once something was sent, or with
// the `Receiver` itself. So its owner sends something, or nobody waits.
pub(crate) struct Sender<X: Fits> {
    mailbox: Arc<Mailbox<X>>,
    is_sent: bool,
}

impl<X: Fits> Model for Sender<X> {
    ghost use Rattle.std.specs.Arc.{arc_value};
    ghost use Rattle.resil_task.specs.Ends.{SenderView};

    ghost Value = { SenderView X.Tag };

    ghost view = { λ sender. record { tag = arc_value sender.mailbox; is_sent = sender.is_sent } };
}

// Makes the two ends for what fits this tag, in one allocation.
pub(crate) fn two_ends<X: Fits + Drop>(
    alloc: Global,
    tag: &X::Tag,
) -> Result<(Sender<X>, Receiver<X>), AllocError>
    ensures { IfOk result (λ ends. (ends.0.tag ≡ tag.now) × (ends.0.is_sent ≡ false) × (ends.1 ≡ tag.now)) }
{
    let mailbox = Arc::new(alloc, Mailbox::new(tag))?;
    let theirs = Arc::try_clone(&mailbox)?;
    let sender = Sender {
        mailbox: theirs,
        is_sent: false,
    };
    Ok((sender, Receiver { mailbox }))
}

impl<X: Fits + Drop> Sender<X> {
    // Sends the value, and wakes a thread that waits for it.
    pub(crate) fn send(self, sent: X) -> Sender<X>
        requires fits { X.fits self.tag sent }
        requires once { self.is_sent ≡ false }
        ensures tag { result.tag ≡ self.tag }
        ensures sent { result.is_sent ≡ true }
    {
        let Sender {
            mailbox,
            is_sent: _,
        } = self;
        mailbox.put(sent);
        Sender {
            mailbox,
            is_sent: true,
        }
    }

    // Gives this end up, once something was sent.
    pub(crate) fn close(self)
        requires sent { self.is_sent ≡ true }
    {
        let Sender {
            mailbox: _,
            is_sent: _,
        } = self;
    }

    // Gives this end up without sending, together with the receiving end: nobody waits any longer.
    pub(crate) fn leave(self, receiver: Receiver<X>)
        requires ends { receiver ≡ self.tag }
    {
        let Sender {
            mailbox: _,
            is_sent: _,
        } = self;
        drop(receiver);
    }
}

impl<X: Fits + Drop> Receiver<X> {
    /// Waits until the value comes. It was sent by the other end: nothing here can make one.
    pub fn wait<R: Wait>(self, rt: &R) -> X
        ensures { X.fits self result }
    {
        self.mailbox.take_once_sent(rt)
    }

    /// Waits for at most `duration`.
    ///
    /// # Errors
    /// The receiver itself, if nothing came in that time, or if the clock couldn't be read and nothing
    /// is there. You can wait for it again.
    ///
    /// ```
    /// let (half_to, half) = one_shot::<Half>(alloc, &30)?;
    /// half_to.reply(Half(15));
    /// if let Ok(half) = half.wait_for(&rt, Duration::from_millis(200)) {
    ///     show(half);
    /// }
    /// ```
    pub fn wait_for<R: Wait + Reads>(self, rt: &R, duration: Duration) -> Result<X, Receiver<X>>
        ensures fits { IfOk result (X.fits self) }
        ensures back { IfErr result (λ receiver. receiver ≡ self) }
        ensures out_of_time { IfErr result (λ _. IsOutOfTime (R.HasSaid rt.now) (as_nanos duration)) }
    {
        self.mailbox.take_within(rt, duration).ok_or(self)
    }

    /// Returns the value that was sent, if it is there. It never waits.
    ///
    /// # Errors
    /// The receiver itself, if nothing has come yet.
    pub fn try_take(self) -> Result<X, Receiver<X>>
        ensures fits { IfOk result (X.fits self) }
        ensures back { IfErr result (λ receiver. receiver ≡ self) }
    {
        self.mailbox.take().ok_or(self)
    }
}
