//! A connection, and what became of its packets.
use bm_base::{Flow, Moment, ServerId};
use bm_core::{Cause, Verdict};

/// A record of the capture: its number, counted from 1, and its moment.
#[derive(Clone, Copy, PartialEq, Eq)]
pub struct Sight {
    pub number: u32,
    pub moment: Moment,
}

/// How a connection ended: not at all; by a FIN of the client after its last SYN; by an RST of the
/// client after that, which a server took or dropped; or by a `close` after its last Accept.
#[derive(Clone, Copy, PartialEq, Eq)]
pub enum Ending {
    Open,
    Fin,
    Reset,
    Close,
}

/// How many arrivals of a connection's packets had each verdict. Strays are among the processed.
/// `after_its_end` are the drops, resets and strays of packets that carry RST or come after an RST
/// ended the connection: they break nothing.
#[derive(Clone, Copy, PartialEq, Eq)]
pub struct Tally {
    pub accepted: u64,
    pub processed: u64,
    pub forwarded: u64,
    pub reset: u64,
    pub dropped: u64,
    pub stray: u64,
    pub after_its_end: u64,
}

/// A packet that was dropped, reset or a stray.
#[derive(Clone, Copy, PartialEq, Eq)]
pub struct Break {
    pub packet: u32,
    pub clock: Moment,
    pub server: ServerId,
    pub verdict: Verdict,
    pub cause: Option<Cause>,
}

/// A packet that was forwarded: at which clock, by which server, and how many nanoseconds after its
/// bucket left the server to which it was forwarded.
#[derive(Clone, Copy, PartialEq, Eq)]
pub struct Forwarding {
    pub packet: u32,
    pub clock: Moment,
    pub server: ServerId,
    pub wait: u64,
}

/// A connection: its flow, the records of its first and last packets, how it ended, the server that
/// accepted it last, what became of its packets, and which of them was forwarded last. The first
/// packet that was dropped, reset or a stray after a server had accepted the connection broke it;
/// if no server accepted it, the first such packet was refused. A packet that carries
/// RST, or comes after an RST ended the connection, is neither. The connection loses data unless
/// each packet that broke it only concerns the farewell: it has no data, the last packet before it
/// has none, and the client's FIN has come. A port that is used again is the same flow.
#[derive(Clone, Copy, PartialEq, Eq)]
pub struct Connection {
    pub flow: Flow,
    pub first: Sight,
    pub last: Sight,
    pub ending: Ending,
    pub server: Option<ServerId>,
    pub tally: Tally,
    pub forwarded: Option<Forwarding>,
    pub broken: Option<Break>,
    pub refused: Option<Break>,
    pub losing_data: bool,
}
