//! The addresses of servers and muxes.
ghost use Rattle.std.specs.Prelude.{◌≡◌};
ghost use Rattle.bm_base.specs.Addresses as addresses;

use crate::{MuxId, ServerId};

/// 172.16.0.0; a server's number is added to it.
const SERVERS: u32 = 0xac10_0000;

/// 172.31.0.0; a mux's number is added to it.
const MUXES: u32 = 0xac1f_0000;

/// The greatest server number.
const LAST_SERVER: u32 = 1_024;

/// How many muxes there may be.
const MAX_MUXES: u32 = 64;

/// The server's address.
pub fn server_addr(s: ServerId) -> u32
    ensures { result ≡ addresses.server_address s }
{
    SERVERS + u32::from(s.0)
}

/// The server with this address, or None if it is no server's.
pub fn server_of(addr: u32) -> Option<ServerId>
    ensures { result ≡ addresses.server_at addr }
{
    if SERVERS < addr && addr <= SERVERS + LAST_SERVER {
        Some(ServerId((addr - SERVERS) as u16))
    } else {
        None
    }
}

/// The mux's address.
pub fn mux_addr(m: MuxId) -> u32
    ensures { result ≡ addresses.mux_address m }
{
    MUXES + u32::from(m.0)
}

/// The mux with this address, or None if it is no mux's.
pub fn mux_at(addr: u32) -> Option<MuxId>
    ensures { result ≡ addresses.mux_at addr }
{
    if MUXES <= addr && addr < MUXES + MAX_MUXES {
        Some(MuxId((addr - MUXES) as u16))
    } else {
        None
    }
}
