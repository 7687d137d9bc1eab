//! TCP headers, the packets that carry them, and resets (RFC 9293).
#![tactic(auto)]

mod fault;
mod packet;
mod reset;
mod segment;

pub use fault::TcpFault;
pub use packet::{InnerFault, read_data, read_packet};
pub use reset::reset_for;
pub use segment::{read_tcp, tcp_data};
