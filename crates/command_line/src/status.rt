//! The exit statuses of the program, beside 0 for a clean stream.

/// The status of a stream that failed.
pub const FAILED: u8 = 1;

/// The status of a specification that was refused.
pub const REFUSED: u8 = 2;

/// The status where the words are wrong, a file or a device failed, or an allocation was refused.
pub const BROKEN: u8 = 3;
