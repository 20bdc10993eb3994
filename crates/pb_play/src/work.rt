/// Who has the turn.
#[derive(Clone, Copy, Debug, PartialEq, Eq)]
pub enum Owner {
    /// Nobody.
    Free,
    /// A client, for requests of a side.
    Held { client: u32, side: u32 },
    /// Nobody, since the region is being opened again.
    Closed,
}

/// Which word of a client's request is scanned next, and those that were loaded before it.
#[derive(Clone, Copy, Debug, PartialEq, Eq)]
pub enum Part {
    AtNumber,
    AtCode {
        number: u64,
    },
    AtFirst {
        number: u64,
        code: u64,
    },
    AtSecond {
        number: u64,
        code: u64,
        a: u64,
    },
    AtThird {
        number: u64,
        code: u64,
        a: u64,
        b: u64,
    },
}

/// What the holder of the turn is at.
#[derive(Clone, Copy, Debug, PartialEq, Eq)]
pub enum Work {
    /// Nobody holds the turn.
    NoWork,
    /// The device calls of settling.
    Settling,
    /// Scanning a client's request.
    Scanning { client: u32, part: Part },
    /// The device calls of the round.
    Calling,
    /// So many words of the next reply row are stored.
    Filling { count: u32 },
    /// The device failed, and its count rose: the count is stored next, ..
    Noting { from: u64, to: u64 },
    /// .. and then the turn is given up.
    GivingUp { from: u64, to: u64 },
}

/// What is known of the device.
#[derive(Clone, Copy, Debug, PartialEq, Eq)]
pub enum Knowledge {
    /// What is recorded is sealed.
    Resting,
    /// So is a round that isn't published yet.
    Recorded,
    /// A round's calls are being made.
    Writing,
    /// Nothing for sure, until it is settled.
    Doubtful,
}
