//! What faults print.
use std::alloc::Global;
use std::fmt::Display;
use std::process::Abort;

/// The value prints this text.
pub(crate) fn assert_prints<T: Display>(rt: &impl Abort, alloc: Global, value: &T, want: &str) {
    let text = value.to_string(alloc).expect(rt, "memory");
    assert_eq!(rt; text.as_str(), want);
}
