//! What is known of a history's events so far, in parts: the clocks of authors, versions, the
//! labels and owners of packets, which servers hold which flows, the entries of tables, and what
//! became of copies. A caller takes the parts that it needs, and gives each event to each of them,
//! in order. What a part answers is what `bm_core` finds by looking back through these events.
//! Where memory was refused to a part, it says nothing more.
#![tactic(auto)]

mod author;
mod clocks;
mod count;
mod flow_key;
mod holder_lists;
mod holders;
mod labels;
mod losses;
mod moves;
mod owners;
mod retirements;
mod sending;
mod shard_key;
mod slots;
mod tallies;
mod versions;

pub use author::{Author, author_of};
pub use clocks::Clocks;
pub use count::one_more;
pub use flow_key::FlowKey;
pub use holders::{FlowHolders, Holders};
pub use labels::{Labels, Steering};
pub use losses::Losses;
pub use moves::Moves;
pub use owners::{Owner, Owners};
pub use sending::{Sending, sending_of};
pub use shard_key::ShardKey;
pub use tallies::{Tallies, Tally};
pub use versions::Versions;
