// The limits of a run's table.

// The most steps of a run.
pub const STEPS: usize = 64;

// The most signals of a diagram.
pub const SIGNALS: usize = 1024;
