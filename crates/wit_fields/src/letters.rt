//! The letters of flags, from the lowest bit on, for the reader and the printer.

/// Of a lock.
pub const LOCK: &[u8] = b"rd";

/// Of a request.
pub const REQUEST: &[u8] = b"ndf";

/// Of an assertion.
pub const ASSERTION: &[u8] = b"ulsxrn";

/// Of a warning.
pub const WARNING: &[u8] = b"gs";
