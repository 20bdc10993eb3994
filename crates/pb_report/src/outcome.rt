use pb_object::Reply;

/// What became of a request of a script.
#[derive(Clone, Copy, Debug, PartialEq, Eq)]
pub enum Outcome {
    /// The request was applied in this run, with this reply.
    New(Reply),
    /// The request was applied before, and its reply was kept.
    Kept(Reply),
    /// The client has later requests, and this one is no longer kept.
    Old,
    /// The number is above the client's next one.
    Gap,
    /// Another operation is kept under this number.
    Changed,
    /// The device failed, and the request may be applied or not.
    Doubt,
    /// The client's run ended before this request.
    Left,
}
