//! How many banks there may be, and how much each holds.

/// The banks, at most.
pub const BANK_LIMIT: u32 = 64;

/// A bank has fewer facts, with the claims to come. No machine has memory for so many.
pub const FACT_LIMIT: u64 = 1 << 57;
