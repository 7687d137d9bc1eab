//! A capture that was read.
use crate::{List, Moment, Segment};

/// The address and port of a service.
#[derive(Clone, Copy, PartialEq, Eq)]
pub struct Vip {
    pub addr: u32,
    pub port: u16,
}

/// Why a record isn't steered.
#[derive(Clone, Copy, PartialEq, Eq)]
pub enum Reason {
    /// The link layer's header is cut short.
    ShortLink,
    /// The link layer carries something other than IPv4.
    NotIpv4,
    /// The IPv4 header is cut short.
    ShortIp,
    /// The version in the IPv4 header isn't 4.
    NotVersion4,
    /// The header length in the IPv4 header is below 20 octets.
    BadHeaderLength,
    /// The total length in the IPv4 header is below the header's length.
    BadTotalLength,
    /// The packet is a fragment.
    Fragment,
    /// The protocol isn't TCP.
    NotTcp,
    /// The TCP header is cut short.
    ShortTcp,
    /// The data offset doesn't fit.
    BadOffset,
    /// The destination isn't one of the services.
    OtherDestination,
    /// With a carrier header the packet would be longer than 65,535 octets.
    TooLong,
    /// A form that isn't supported. `classify` and `read_capture` never give it.
    Later,
}

/// What a record contains: a segment to be steered, or the first reason against it.
#[derive(Clone, Copy, PartialEq, Eq)]
pub enum Body {
    Steerable(Segment),
    Unsteered(Reason),
}

/// A record of a capture: its moment, and what it contains.
#[derive(Clone, Copy, PartialEq, Eq)]
pub struct Record {
    pub moment: Moment,
    pub body: Body,
}

/// The records of a capture in order, and the number of the one that is cut short, if one is.
#[derive(Drop)]
pub struct Capture {
    pub records: List<Record>,
    pub cut: Option<u32>,
}
