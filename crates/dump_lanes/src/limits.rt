//! How large a pool can be.

/// The most workers that a pool has.
pub const MOST_WORKERS: usize = 64;

/// The widest window: the most items that are under way at once.
pub const MOST_WINDOW: usize = 4096;
