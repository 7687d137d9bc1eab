//! How a stage is played.

/// How a stage is played.
#[derive(Clone, Copy, PartialEq, Eq)]
pub enum Mode {
    /// In one thread, in the order of the clocks.
    Replay,
    /// In a thread for each mux, and one for the commands.
    Run,
}
