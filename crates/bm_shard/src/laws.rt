//! What the book of a shard means. Each law is a function whose contract is the law.
ghost use Rattle.std.specs.Prelude.{◌≡◌, List, reverse, is_some, Some, None};
ghost use Rattle.bm_base.specs.Labels.{tag_of};
ghost use Rattle.bm_base.specs.declared.flow.Flow.{Flow};
ghost use Rattle.bm_base.specs.declared.flow.Segment.{Segment};
ghost use Rattle.bm_base.specs.declared.ids.Moment.{Moment};
ghost use Rattle.bm_base.specs.declared.label.Hop.{Hop};
ghost use Rattle.bm_base.specs.declared.label.Label.{Label};
ghost use Rattle.bm_base.specs.declared.label.Tag.{Tag};
ghost use Rattle.bm_core.specs.Past.{held, shard};
ghost use Rattle.bm_core.specs.Verdicts.{verdict_at};
ghost use Rattle.bm_core.specs.declared.events.Event.{Event};
ghost use Rattle.bm_core.specs.declared.events.Verdict.TheVariants.{Drop};
ghost use Rattle.bm_core.specs.declared.events.Why.TheVariants.{Retired};
ghost use Rattle.bm_shard.specs.Books.{knows_after};
ghost use Rattle.bm_shard.specs.Laws.{AreOf, IsOf, IsRetired};
ghost use Rattle.bm_shard.specs.Replies.{is_held_by, verdict_by};

use crate::ShardBook;
use bm_core::Stage;

/// If a shard's entries are its turns in a history, it decides on a copy of a packet as the history
/// says.
pub fn verdicts(book: &ShardBook, stage: &Stage)
    requires { IsOf stage.now book.now.shard }
    ensures { (past : List Event) → AreOf stage.now past book.now
        → (label : Label) (hop : Hop) (tag : Tag) (s : Segment) (clock : Moment)
        → tag_of label hop ≡ Some tag → shard stage.now s.flow ≡ book.now.shard.number
        → verdict_by book.now.shard (knows_after book.now.shard (reverse book.now.entries)) clock
        tag s
        ≡ verdict_at stage.now past clock.0 label hop book.now.shard.server s }
{}

/// Such a shard holds the flows that the history says.
pub fn holdings(book: &ShardBook, stage: &Stage)
    requires { IsOf stage.now book.now.shard }
    ensures { (past : List Event) → AreOf stage.now past book.now
        → (flow : Flow) → shard stage.now flow ≡ book.now.shard.number
        → is_held_by (knows_after book.now.shard (reverse book.now.entries)) flow
        ≡ is_some (held stage.now past book.now.shard.server flow) }
{}

/// Once a retirement is done, no connection is held, and every packet is dropped.
pub fn retired(book: &ShardBook)
    requires { IsRetired book.now }
    ensures ended { (flow : Flow)
        → (knows_after book.now.shard (reverse book.now.entries) flow).held ≡ None }
    ensures dropped { (clock : Moment) (tag : Tag) (s : Segment)
        → verdict_by book.now.shard (knows_after book.now.shard (reverse book.now.entries)) clock
        tag s
        ≡ Drop Retired }
{
    let _entries = book.history();
}
