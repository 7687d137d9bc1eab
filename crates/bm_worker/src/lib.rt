//! The workers of a threaded run: their seats at all servers, and the packets of a mux.
#![tactic(auto)]

mod batch;
mod caller;
mod phase;
mod place;
mod sends;
mod shared;
mod span;
mod stop;
mod work;
mod worker;

pub use caller::Caller;
pub use place::place_of;
pub use shared::Shared;
pub use span::Span;
pub use stop::Stop;
pub use work::work_all;
pub use worker::MuxWorker;
