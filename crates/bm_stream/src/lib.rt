//! The byte streams of connections: what each accepted connection received, put in order.
#![tactic(auto)]

mod collect;
pub mod laws;
mod lines;
mod packets;
mod places;
mod receiving;
mod ring;
mod stream;

pub use receiving::streams;
pub use stream::Stream;
