// Limits of a program.

// The most accesses of a program, and so the most steps of a schedule.
pub const STEPS: usize = 24;
