//! What the last line of a report says.

/// How many packets there are, and what became of them. Packets, steered and unsteered count
/// records; accepted, processed, forwarded, reset and dropped count arrivals by their verdict; lost
/// counts sendings without copies. Strays are among the processed.
#[derive(Clone, Copy, PartialEq, Eq)]
pub struct Totals {
    pub packets: u64,
    pub steered: u64,
    pub unsteered: u64,
    pub accepted: u64,
    pub processed: u64,
    pub forwarded: u64,
    pub reset: u64,
    pub dropped: u64,
    pub lost: u64,
    pub stray: u64,
}
