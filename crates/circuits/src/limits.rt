/// How many inputs a netlist may have.
pub const MOST_INPUTS: usize = 256;

/// How many gates a netlist may have.
pub const MOST_GATES: usize = 4096;

/// How many inputs a gate may have.
pub const MOST_FANIN: usize = 64;

/// How many bytes the name of a net may have.
pub const LONGEST_NAME: usize = 64;
