use pb_object::{Kept, Reply};

/// What a try comes to.
#[derive(Clone, Copy, Debug, PartialEq, Eq)]
pub enum Attempt {
    /// The request is recorded and durable, with this reply, and nothing is pending.
    Done(Reply),
    /// Another one holds the turn or took it first, or this call published a round that was found recorded and lacks the request, or its
    /// reply was found and another round was published meanwhile: these are two values that the turn word had in this order. The request
    /// stays announced.
    Busy {
        /// The value met first.
        from: u64,
        /// The value met then.
        to: u64,
    },
    /// The device failed while this call held the turn, and its count rose. The request stays announced, and may be recorded later by
    /// whoever settles.
    Fault {
        /// The count before.
        from: u64,
        /// The count after.
        to: u64,
    },
}

/// What asking again comes to. Only the first one changes anything.
#[derive(Clone, Copy, Debug, PartialEq, Eq)]
pub enum Again {
    /// The request is the next one, and is announced.
    Announced,
    /// It is one of the client's last eight, and this was its reply.
    Kept(Reply),
    /// It is older than those.
    Old {
        /// The client's last recorded number.
        last: u64,
    },
    /// Its number is beyond the next one.
    Gap {
        /// The client's last recorded number.
        last: u64,
    },
    /// One of the client's last eight has its number and another operation.
    Changed {
        /// That request.
        kept: Kept,
    },
}

/// What performing a request comes to.
#[derive(Clone, Copy, Debug, PartialEq, Eq)]
pub enum Performed {
    /// The request is recorded and durable, with this reply.
    Done(Reply),
    /// The device failed while this call held the turn, and its count rose.
    Fault {
        /// The count before.
        from: u64,
        /// The count after.
        to: u64,
    },
}
