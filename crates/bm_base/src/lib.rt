//! The types that every crate uses: servers, muxes, flows, segments, labels and records.
#![tactic(auto)]

mod address;
mod capture;
mod fate;
pub mod flags;
mod flow;
mod ids;
mod label;
mod list;
mod memory;
mod octets;
mod receive;
mod text;

pub use address::{mux_addr, mux_at, server_addr, server_of};
pub use capture::{Body, Capture, Reason, Record, Vip};
pub use fate::Fate;
pub use flow::{Flow, Segment, is_opening};
pub use ids::{LAST, Moment, MuxId, ServerId, Version};
pub use label::{Entry, Hop, Label, Past, Tag, tag_of};
pub use list::List;
pub use memory::Memory;
pub use octets::{MAX_INNER, Octets};
pub use receive::Taken;
pub use text::Text;
