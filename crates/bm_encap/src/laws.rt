//! What the definitions of carrier headers mean. Each law is a function that does nothing, or that
//! reads numbers for the bounds of their types: its contract is the law.
ghost use Rattle.std.specs.Prelude.{◌≡◌, ◌≤◌, length, Ok, IfOk};
ghost use Rattle.bm_encap.specs.Faults.{unwrapped};
ghost use Rattle.bm_encap.specs.Spellings.{spelling};
ghost use Rattle.bm_base.specs.Tags.{IsTag};

use crate::header::past_stamp;
use bm_base::Tag;

/// The spelling of a valid tag has no fault, and reads as the tag and the packet. So no octets
/// spell two tags.
pub fn spelling_is_read(tag: &Tag, inner: &[u8])
    requires tag { IsTag tag.now }
    requires inner { length inner.now ≤ 65479 }
    ensures { unwrapped (spelling tag.now inner.now) ≡ Ok (tag.now, inner.now) }
{
    let _prev = past_stamp(tag.prev);
    let _older = past_stamp(tag.older);
    let _version = tag.version.0;
}

/// Octets without a fault are the spelling of what they say, and their tag is valid.
pub fn only_spellings_are_read(octets: &[u8])
    ensures { IfOk (unwrapped octets.now)
        (λ read. IsTag read.0 × (octets.now ≡ spelling read.0 read.1)) }
{}
