// The limits of inputs and replies, in bytes.

// The longest input that is read.
pub const LONGEST_INPUT: usize = 32_768;

// The longest reply: that to a listing of 64 rows.
pub const LONGEST_REPLY: usize = 1_095;
