//! The events of clients, of the device and of a crash.

use pb_crash::Leaves;
use pb_object::{Ask, Reply};

/// What may happen.
#[derive(Clone, Copy, Debug, PartialEq, Eq)]
pub enum Event {
    /// A client asks for something.
    Ask(Ask),
    /// A client makes its next step: a step on one word, or a call of the device.
    Step {
        /// Which client.
        client: u32,
    },
    /// The next step of a client is a call of the device, and it fails.
    Fail {
        /// Which client.
        client: u32,
        /// What the call leaves.
        how: Leaves,
    },
    /// A crash: the device is left with one of the images that it may be left with.
    Crash {
        /// The mark that the device has reached.
        cut: u32,
        /// Which of the images at that mark.
        pick: u64,
    },
    /// The next part of opening the region again after a crash.
    Reopen,
    /// The next part of opening it again fails.
    ReopenFail {
        /// What the call leaves.
        how: Leaves,
    },
}

/// What comes of an event.
#[derive(Clone, Copy, Debug, PartialEq, Eq)]
pub enum Stepped {
    /// It happened, and nobody is answered.
    Went,
    /// A client's request is recorded, and this is its reply.
    Done {
        /// The request.
        ask: Ask,
        /// Its reply.
        reply: Reply,
    },
    /// A client's try ended without a reply: it met these two values of the turn word.
    Busy {
        /// The request, which stays announced.
        ask: Ask,
        /// The value met first.
        from: u64,
        /// The value met then.
        to: u64,
    },
    /// The client that held the turn met a fault of the device, whose count rose.
    Fault {
        /// The request, which stays announced.
        ask: Ask,
        /// The count before.
        from: u64,
        /// The count after.
        to: u64,
    },
    /// The event can't happen now, and nothing changed.
    Impossible,
}
