//! What workers pass between their tries.

/// What the workers of a run pass: it lets a test hold them. Both calls may wait.
///
/// A gate that waits holds the handle for it, as `struct Held<R: Wait>` does.
pub trait Gate: Sync {
    /// Called by a client's worker before each request that it tries.
    fn before(&self, client: u32, number: u64);

    /// Called after each attempt that found the client's pending request busy, before the next one.
    fn busy(&self, client: u32, number: u64);
}

/// The gate that is always open: neither call does anything.
#[derive(Clone, Copy, Debug, PartialEq, Eq)]
pub struct OpenGate;

impl Gate for OpenGate {
    fn before(&self, _client: u32, _number: u64) {}

    fn busy(&self, _client: u32, _number: u64) {}
}
