//! Interfaces of a section.
ghost use Rattle.std.specs.Prelude.{◌≡◌, ◌≤◌, ◌+◌, ◌-◌, length, drop};
ghost use Rattle.bm_pcapng.specs.Contents.{interface_of};
ghost use Rattle.bm_pcapng.specs.Options.{is_over, padded, resolution_by};
ghost use Rattle.bm_pcapng.specs.Inside.Options.{is_resolution};

use crate::Resolution;
use bm_pcap::Order;

/// An interface: its link type, how many octets of a packet are captured at most (0 for no limit),
/// and its unit of time.
#[derive(Clone, Copy, PartialEq, Eq)]
pub struct Interface {
    pub link: u16,
    pub snapshot: u32,
    pub resolution: Resolution,
}

impl Interface {
    /// The interface that a block describes.
    pub(crate) fn of(order: Order, block: &[u8]) -> Interface
        requires { 20 ≤ length block.now }
        ensures { result ≡ interface_of order block.now }
    {
        Interface {
            link: order.read_u16(block, 8),
            snapshot: order.read_u32(block, 12),
            resolution: resolution_in(order, &block[16..block.len() - 4]),
        }
    }
}

/// The resolution that these options give.
fn resolution_in(order: Order, options: &[u8]) -> Resolution
    ensures { result ≡ resolution_by order options.now }
{
    let mut rest = options;
    while !is_over(order, rest) {
        if is_resolution(order, rest) {
            return Resolution::of(rest[4]);
        }
        rest = after_option(rest, order.read_u16(rest, 2));
    }
    Resolution::Decimal(6)
}

/// Whether there is no option at the front.
fn is_over(order: Order, octets: &[u8]) -> bool
    ensures { result ≡ is_over order octets.now }
{
    octets.len() < 4
        || order.read_u16(octets, 0) == 0
        || octets.len() < 4 + usize::from(order.read_u16(octets, 2))
}

/// Whether the option at the front gives a resolution.
fn is_resolution(order: Order, octets: &[u8]) -> bool
    requires { 4 ≤ length octets.now }
    ensures { result ≡ is_resolution order octets.now }
{
    order.read_u16(octets, 0) == 9 && order.read_u16(octets, 2) == 1
}

/// The octets after an option whose value has this length.
fn after_option(octets: &[u8], len: u16) -> &[u8]
    ensures { result.now ≡ drop (4 + padded len) octets.now }
{
    let size = 4 + (usize::from(len) + 3) / 4 * 4;
    &octets[size.min(octets.len())..]
}
