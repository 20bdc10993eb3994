//! The limits of a shared object, each named once.

/// How many clients a region has at most.
pub const MOST_CLIENTS: u32 = 16;

/// The greatest size of an object.
pub const MOST_SIZE: u32 = 1024;
