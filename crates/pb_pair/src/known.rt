/// What a pair did to its device last, and so what may be done next.
#[derive(Clone, Copy, Debug, PartialEq, Eq)]
pub enum Known {
    /// It was formatted, settled or stored to, and no call failed since: it may be stored to.
    Sure,
    /// It was opened: it may be settled. A crash may leave another record in use until then.
    Opened,
    /// A call failed: the device may hold the records in use, or the record of a store whose index word was called. It may be settled.
    Failed,
}

/// A failed store: its record lies in the memory of its side's spare record.
#[derive(Clone, Copy, Debug, PartialEq, Eq)]
pub struct Doubt {
    pub side: u32,
    /// Whether the index word had been called that switches the side to the record.
    pub called: bool,
}
