//! What the definitions of copies mean. The law is a function that does nothing: its contract is
//! the law.
ghost use Rattle.std.specs.Prelude.{◌≡◌, Ok};
ghost use Rattle.bm_base.specs.declared.capture.Body.TheVariants.{Steerable};
ghost use Rattle.bm_base.specs.Tags.{IsTag};
ghost use Rattle.bm_encap.specs.Spellings.{spelling};
ghost use Rattle.bm_link.specs.Fits.{IsPacketOf};
ghost use Rattle.bm_shard.specs.Copies.{copy_in};

use bm_base::{Segment, Tag};
use bm_encap::laws::spelling_is_read;

/// What `wrap` writes for a steerable packet and a valid tag has none of the faults at its
/// destination.
pub fn steered_is_read(tag: &Tag, segment: &Segment, packet: &[u8])
    requires tag { IsTag tag.now }
    requires packet { IsPacketOf (Steerable segment.now) packet.now }
    ensures { copy_in tag.now.dest (spelling tag.now packet.now) ≡ Ok (tag.now, segment.now) }
{
    spelling_is_read(tag, packet);
}
