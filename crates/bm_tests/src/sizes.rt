//! How many octets an event of a history takes, and an entry of a shard's book.
use bm_core::Event;
use bm_shard::ShardEntry;
use std::mem::size_of;

#[test]
fn events_and_entries_are_small(rt: HostRuntime) {
    assert!(rt; size_of::<Event>() == 32);
    assert!(rt; size_of::<ShardEntry>() == 152);
}
