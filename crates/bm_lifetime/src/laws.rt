//! The laws of lifetimes, over every replay and every script. Each is a function that does nothing: its
//! contract is the law.
ghost use Rattle.std.specs.Prelude.{◌≡◌, ℕ, ◌+◌, ◌<◌, ◌≤◌, List, drop, All, Some};
ghost use Rattle.bm_base.specs.declared.flow.Flow.{Flow};
ghost use Rattle.bm_base.specs.declared.flow.Segment.{Segment};
ghost use Rattle.bm_base.specs.declared.ids.ServerId.{ServerId};
ghost use Rattle.bm_core.specs.declared.events.Event.{Event};
ghost use Rattle.bm_core.specs.Histories.{IsReplay};
ghost use Rattle.bm_core.specs.Laws.{At, IsServed, IsUnbrokenArrival};
ghost use Rattle.bm_core.specs.Rules.{RouteBy, RuleBy, setting_fate, setting_mux};
ghost use Rattle.bm_core.specs.Past.{segment_of};
ghost use Rattle.bm_core.specs.Threads.{record_moment};
ghost use Rattle.bm_lifetime.specs.Lifetime.{lifetime, longest_lag};
ghost use Rattle.bm_lifetime.specs.Worth.{IsNoLonger, with_first, with_timeout, with_wait};
ghost use Rattle.bm_lifetime.specs.Young.{AreOpenings, IsOnly, IsYoungArrival, IsYoungInBucket};

use bm_core::{History, Stage};
use bm_table::Script;

/// In the replay of a script and a capture, whatever the capture: where a packet arrives of a
/// connection that was opened once, was accepted before the packet was steered, wasn't ended, and
/// has lived no longer than the script's lifetime, no premise is broken. So the packet is processed
/// by the server that accepted the connection, or forwarded one step nearer to it. Its opening
/// packet may be repeated, as long as all are sent to one server.
pub fn guaranteed(h: &History, place: usize)
    requires replay { let setting = h.now.stage.script.setting in
        IsReplay (RouteBy (setting_mux setting)) (RuleBy (setting_fate setting)) h.now }
    requires young { At h.now place IsYoungArrival }
    ensures unbroken { At h.now place IsUnbrokenArrival }
    ensures served { At h.now place (λ stage past clock what. IsServed stage past what) }
{}

/// The same, by the lifetime of the connection's bucket, which is as long or longer.
pub fn guaranteed_in_bucket(h: &History, place: usize)
    requires replay { let setting = h.now.stage.script.setting in
        IsReplay (RouteBy (setting_mux setting)) (RuleBy (setting_fate setting)) h.now }
    requires young { At h.now place IsYoungInBucket }
    ensures unbroken { At h.now place IsUnbrokenArrival }
    ensures served { At h.now place (λ stage past clock what. IsServed stage past what) }
{}

/// A connection that one packet opened was opened from that packet's moment on, with its sequence
/// number, at one server.
pub fn opened_once(stage: &Stage)
    ensures { (past : List Event) (f : Flow) (k : ℕ) (s : Segment)
        → segment_of stage.now k ≡ Some s → IsOnly stage.now past f k
        → (home : ServerId) × AreOpenings stage.now past f (record_moment stage.now k) s.seq home }
{}

/// The lifetime doesn't fall where the timeout is raised.
pub fn longer_timeout(script: &Script, timeout: u64)
    requires { script.now.setting.timeout ≤ timeout }
    ensures { IsNoLonger (lifetime script.now) (lifetime (with_timeout script.now timeout)) }
{}

/// The lifetime doesn't fall where changes are left out at the end.
pub fn fewer_changes(script: &Script, count: usize)
    ensures { IsNoLonger (lifetime script.now) (lifetime (with_first script.now count)) }
{}

/// The lifetime doesn't fall where the wait before a change grows, so that this change and all after
/// it come later. A change at moment 0 where no mux has a lag isn't counted, since no packet comes
/// before it. If it came later, it would be counted, and could bound a lifetime that had no bound. So
/// there must be none such among the changes that come later.
pub fn longer_wait(script: &Script, before: usize, wait: u64)
    requires { All (λ c. 0 < c.moment.0 + longest_lag script.now.setting)
        (drop before script.now.plan.changes) }
    ensures { IsNoLonger (lifetime script.now) (lifetime (with_wait script.now before wait)) }
{}
