//! The limits of numbers, words and clients, each stated here alone.

/// LSNs and the numbers of segments are from 1 and below this.
pub const NUMBER_LIMIT: u64 = 1 << 62;

/// The most bytes of a map's id.
pub const ID_LIMIT: usize = 64;

/// The most bytes of a key.
pub const KEY_LIMIT: usize = 255;

/// The most bytes of a value.
pub const VALUE_LIMIT: usize = 65_535;

/// The most clients of a run.
pub const CLIENT_LIMIT: u32 = 64;
