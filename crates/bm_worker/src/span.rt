//! The extent of a phase.
use bm_base::Moment;

/// A phase of the run: its packets are those of the records at the places `from..until`, and it
/// comes after the Sync with the clock `after`, or 0 if there is none.
#[derive(Clone, Copy, PartialEq, Eq)]
pub struct Span {
    pub from: u32,
    pub until: u32,
    pub after: Moment,
}
