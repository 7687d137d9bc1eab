//! A name that files were asked for.
use bm_base::Text;

/// A name that files were asked for, how often they had failed by then, and how many sources were
/// open.
#[derive(Drop)]
pub struct Opening {
    pub name: Text,
    pub faults: u64,
    pub open_now: u32,
}
