//! A file in memory.
ghost use Rattle.std.specs.Prelude.{◌≤◌};

use bm_base::{List, Text};

/// A file in memory. Its source gives at most `step` octets at a time, and fails at the calls whose
/// numbers, counted from 1, are in `fails`.
#[derive(Drop)]
pub struct MemFile {
    pub name: Text,
    pub octets: List<u8>,
    pub step: usize,
    pub fails: List<u32>,
    ghost steps: { 1 ≤ step },
}
