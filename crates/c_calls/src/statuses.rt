//! The statuses of refused calls, numbered as the program's.

/// The order, the plan or a claim was judged, and refused.
pub const NO: u32 = 1;

/// A number or a room does not fit what is asked for.
pub const USAGE: u32 = 2;

/// The arrays are none of what they are to be.
pub const FORMAT: u32 = 3;

/// They pass a limit.
pub const LIMIT: u32 = 4;

/// The bound is below the peak of the order.
pub const BOUND: u32 = 5;

/// Memory ran out.
pub const NO_MEMORY: u32 = 8;

/// A step needs more for itself than the bound.
pub const WORKING_SET: u32 = 10;
