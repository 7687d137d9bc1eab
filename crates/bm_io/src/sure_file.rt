//! A file in memory whose source never fails.
ghost use Rattle.std.specs.Prelude.{◌≤◌};

use bm_base::{List, Text};

/// A file in memory: its name, its octets, and how many of them its source gives at a time, at
/// most.
#[derive(Drop)]
pub struct SureFile {
    pub name: Text,
    pub octets: List<u8>,
    pub step: usize,
    ghost steps: { 1 ≤ step },
}
