//! Captures of the pcapng form, read block by block over any source.
#![tactic(auto)]

mod block;
mod content;
mod front;
mod interface;
mod item;
mod place;
mod reader;
mod section;
mod step;
mod time;

pub use block::Kind;
pub use content::{Content, Packet};
pub use front::Front;
pub use interface::Interface;
pub use item::NgItem;
pub use place::{LONGEST_BLOCK, MOST_INTERFACES, Place};
pub use reader::{NgReader, read_ng};
pub use step::Step;
pub use time::Resolution;
