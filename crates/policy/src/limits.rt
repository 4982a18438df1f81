// The limits of a policy, each written once: the check, the join and the state's own type use these.
// Inputs, and outputs, at the most.
pub const SIGNALS: usize = 4;

pub const CLOCKS: usize = 4;

// A clock's ceiling at the most, in ticks.
pub const CEILING: usize = 1001;

pub const LOCATIONS: usize = 64;

pub const RULES: usize = 256;

pub const STATES: usize = 65536;

// A rule takes RULE_HEAD bytes and, for each clock, BOUND_SIZE more.
// Those before its bounds: source, input care, input value, output care, output value, reset mask, target.
pub const RULE_HEAD: usize = 7;

// Those of a clock's bounds: a low and a high.
pub const BOUND_SIZE: usize = 4;

// The longest file: its six bytes of counts, and every section full.
pub const FILE: usize = 6
    + 2 * SIGNALS
    + 2 * CLOCKS
    + LOCATIONS
    + RULES * (RULE_HEAD + BOUND_SIZE * CLOCKS);

// The target that is no location: the violation.
pub const VIOLATION: usize = 255;

// The high that is no upper bound.
pub const NO_UPPER_BOUND: u16 = 65535;
