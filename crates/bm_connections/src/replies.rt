//! What servers replied to the commands `close` and `retire`.
ghost use Rattle.std.specs.Prelude.{◌≡◌, ◌∷◌, List, OnOk};
ghost use Rattle.bm_core.specs.declared.events.Event.{Event};
ghost use Rattle.bm_connections.specs.Replies as spec;

use bm_core::{Event, What};
use std::alloc::AllocError;

fn is_reply(what: What) -> bool
    ensures { result ≡ spec.is_reply what }
{
    matches!(what, What::Close { .. } | What::Retire { .. })
}

/// Appends the event that comes next, if it is a reply.
pub(crate) fn observe_reply(replies: &mut Vec<Event>, event: &Event) -> Result<(), AllocError>
    ensures { (past : List Event) → replies.old.items ≡ spec.replies_in past
        → OnOk result (replies.new.items ≡ spec.replies_in (event.now ∷ past)) }
{
    if is_reply(event.what) {
        replies.push(*event)?;
    }
    Ok(())
}
