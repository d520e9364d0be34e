// How long texts may be.

/// No input is longer than so many bytes.
pub const TOTAL_LIMIT: usize = 0xffff_ffff;
