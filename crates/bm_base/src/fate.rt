//! What becomes of a sending.

/// What becomes of a sending: how many copies arrive, and how many nanoseconds later.
#[derive(Clone, Copy, PartialEq, Eq)]
pub struct Fate {
    pub copies: u8,
    pub delay: u64,
}
