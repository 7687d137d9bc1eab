//! What an event sends.
ghost use Rattle.std.specs.Prelude.{◌≡◌, option_map};
ghost use Rattle.bm_core.specs.Past.{sending_of};
ghost use Rattle.bm_state.specs.Sendings.{as_sending};

use bm_base::Hop;
use bm_core::{Verdict, What};

/// A packet that is sent, and the hop that its copies make.
#[derive(Clone, Copy)]
pub struct Sending {
    pub packet: u32,
    pub hop: Hop,
}

/// What the event sends: a Steer sends the packet's direct copies, and an arrival that is forwarded
/// the copies of the next hop.
pub fn sending_of(what: What) -> Option<Sending>
    ensures { option_map as_sending result ≡ sending_of what }
{
    match what {
        What::Steer { packet, .. } => Some(Sending {
            packet,
            hop: Hop::Direct,
        }),
        What::Arrive {
            packet,
            hop,
            verdict: Verdict::Forward(_),
            ..
        } => Some(Sending {
            packet,
            hop: hop.next()?,
        }),
        _ => None,
    }
}
