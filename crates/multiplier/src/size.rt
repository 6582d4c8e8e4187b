/// The least size of a multiplier: its array has a row of adders for each bit of the second operand but the lowest.
pub const LEAST_SIZE: u32 = 2;

/// The greatest size of a multiplier that is made.
pub const MOST_SIZE: u32 = 16;
