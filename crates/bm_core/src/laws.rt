//! The laws of the protocol, over every run. Each is a function that does nothing: its contract is
//! the law.
ghost use Rattle.std.specs.Prelude.{◌≡◌, ◌≤◌, ◌*◌, ◌^◌, ◌&&◌, ◌==◌, ℕ, List, length, Some, is_some};
ghost use Rattle.std.specs.Prelude.{◌↔◌, reverse, true};
ghost use Rattle.bm_base.specs.declared.flow.Flow.{Flow};
ghost use Rattle.bm_base.specs.declared.ids.MuxId.{MuxId};
ghost use Rattle.bm_base.specs.declared.ids.ServerId.{ServerId};
ghost use Rattle.bm_base.specs.declared.label.Hop.{Hop};
ghost use Rattle.bm_base.specs.declared.label.Label.{Label};
ghost use Rattle.bm_base.specs.declared.fate.Fate.{Fate};
ghost use Rattle.bm_core.specs.declared.events.Event.{Event};
ghost use Rattle.bm_core.specs.declared.events.What.{What};
ghost use Rattle.bm_core.specs.Books.{AreDistinct, book_local, book_of, is_listed};
ghost use Rattle.bm_core.specs.Causes.{cause, is_elsewhere};
ghost use Rattle.bm_core.specs.Accounts.{IsAccountOf};
ghost use Rattle.bm_core.specs.Ends.{AreLost, IsEnded, IsKept};
ghost use Rattle.bm_core.specs.Histories.{IsNextIn, IsReplay};
ghost use Rattle.bm_core.specs.Laws.{At, IsBreak, IsLate, IsRetiredDrop, IsServed, IsServedPacket};
ghost use Rattle.bm_core.specs.Laws.{IsHeldElsewhere, IsRefusalNamed, IsRefusedOpening};
ghost use Rattle.bm_core.specs.Laws.{IsUnbrokenArrival, IsUnbrokenPacket};
ghost use Rattle.bm_core.specs.Logs.{log_of};
ghost use Rattle.bm_core.specs.Past.{flows_held, held, label_of, segment_of, shard, version_at};
ghost use Rattle.bm_core.specs.Pins.{IsKeptTo, IsPinned};
ghost use Rattle.bm_core.specs.Rules.{RouteBy, RuleBy, setting_fate, setting_mux};
ghost use Rattle.bm_core.specs.Runs.Actor.{MuxOf};
ghost use Rattle.bm_core.specs.Runs.{IsRun, last_clock};
ghost use Rattle.bm_core.specs.Schedule.{Follows};
ghost use Rattle.bm_core.specs.Stages.{IsSound};
ghost use Rattle.bm_core.specs.Verdicts.{local_at};
ghost use Rattle.bm_core.specs.Soon.{AreSoon};

use crate::{History, Stage};

/// Where a copy of a packet arrives and the packet's premises hold, the copy is processed by its
/// owner's server, or forwarded one step nearer to it.
pub fn safety(h: &History, place: usize)
    requires run { IsRun h.now }
    requires unbroken { At h.now place IsUnbrokenArrival }
    ensures { At h.now place (λ stage past clock what. IsServed stage past what) }
{}

/// If a packet's premises hold at all its arrivals, each of them is processed by its owner's server
/// or forwarded one step nearer to it: no other server processes the packet, and none drops or
/// resets it.
pub fn served(h: &History, packet: u32)
    requires run { IsRun h.now }
    requires unbroken { IsUnbrokenPacket h.now.stage (reverse h.now.events) packet }
    ensures { IsServedPacket h.now.stage (reverse h.now.events) packet }
{}

/// If a steered packet's premises hold at all its arrivals, the server that accepted its connection
/// processes each copy that isn't lost or forwarded. No other server processes one, and none is
/// dropped or reset.
pub fn kept(h: &History, packet: u32)
    requires run { IsRun h.now }
    requires steered { is_some (segment_of h.now.stage packet) ≡ true }
    requires unbroken { IsUnbrokenPacket h.now.stage (reverse h.now.events) packet }
    ensures { (mux : ℕ → Flow → ℕ) (fate : ℕ → Hop → Fate) (fates : List Fate)
        → IsAccountOf (RouteBy mux) (RuleBy fate) h.now.stage fates (reverse h.now.events)
        → IsKept (RuleBy fate) h.now.stage (reverse h.now.events) packet }
{}

/// Each steered packet has an end: a server accepts, processes, resets or drops a copy, or a copy
/// is lost. It has just one where each of its sendings has one copy at most.
pub fn ended(h: &History, packet: u32)
    requires run { IsRun h.now }
    requires steered { is_some (segment_of h.now.stage packet) ≡ true }
    ensures { (mux : ℕ → Flow → ℕ) (fate : ℕ → Hop → Fate) (fates : List Fate)
        → IsAccountOf (RouteBy mux) (RuleBy fate) h.now.stage fates (reverse h.now.events)
        → IsEnded (RuleBy fate) (reverse h.now.events) packet }
{}

/// What the script loses arrives nowhere: where it gives no copies to a packet's sendings with a
/// hop, each of them is lost, and where each of them is lost no copy arrives.
pub fn lost(h: &History, packet: u32)
    requires { IsRun h.now }
    ensures { (mux : ℕ → Flow → ℕ) (fate : ℕ → Hop → Fate) (fates : List Fate)
        → IsAccountOf (RouteBy mux) (RuleBy fate) h.now.stage fates (reverse h.now.events)
        → (hop : Hop) → AreLost (RuleBy fate) (reverse h.now.events) packet hop }
{}

/// Each packet that is dropped, reset or processed elsewhere has a cause.
pub fn causes(h: &History, place: usize)
    requires run { IsRun h.now }
    requires broke { At h.now place (λ stage past clock what. IsBreak stage past what) }
    ensures { At h.now place
        (λ stage past clock what. is_some (cause stage past clock what) ≡ true) }
{}

/// An opening packet that is reset or dropped is dropped: by a full shard, or by a retired one because
/// its mux had an old table. Its cause says which.
pub fn refused(h: &History, place: usize)
    requires run { IsRun h.now }
    requires refused { At h.now place
        (λ stage past clock what. IsRefusedOpening stage past what) }
    ensures { At h.now place IsRefusalNamed }
{}

/// Only a packet that is dropped, reset or processed elsewhere has a cause.
pub fn only_breaks(stage: &Stage)
    ensures { (past : List Event) (clock : ℕ) (what : What)
        → is_some (cause stage.now past clock what) ≡ true → IsBreak stage.now past what }
{}

/// The premise `SynElsewhere` is broken by exactly this: a server other than the owner's holds the
/// flow.
pub fn elsewhere(stage: &Stage)
    ensures { (past : List Event) (flow : Flow) (server : ServerId)
        → (is_elsewhere stage.now past past flow server ≡ true)
        ↔ IsHeldElsewhere stage.now past flow server }
{}

/// A copy that a retired shard drops is late: there is a server to which it would be passed on, and
/// the clock is past that server's stamp by more than the timeout. This is said of a server other
/// than the owner's, if the label is no older than the owner's version and the bucket moved since
/// then at most twice, and at least as often as the copy went back.
pub fn retired_late(h: &History, place: usize)
    requires run { IsRun h.now }
    requires dropped { At h.now place (λ stage past clock what. IsRetiredDrop stage past what) }
    ensures { At h.now place IsLate }
{}

/// If a connection's packets keep to the premises, the server that accepted it serves it: each copy
/// of its other packets is processed there or, as a direct copy, forwarded there.
pub fn pinned(h: &History, packet: u32)
    requires { IsRun h.now }
    ensures { (pin : IsPinned h.now.stage (reverse h.now.events) packet)
        → IsKeptTo h.now.stage (reverse h.now.events) packet pin }
{}

/// Each sound stage has a replay, by the route and the impairments of its own setting.
pub fn some_replay(stage: &Stage)
    requires { IsSound stage.now }
    ensures { let setting = stage.now.script.setting in
        (h : History) × (h.stage ≡ stage.now)
        × IsReplay (RouteBy (setting_mux setting)) (RuleBy (setting_fate setting)) h }
{}

/// A replay is determined by its stage, its route and its impairment rule.
pub fn one_replay(a: &History, b: &History)
    requires { a.now.stage ≡ b.now.stage }
    ensures { (mux : ℕ → Flow → ℕ) (fate : ℕ → Hop → Fate)
        → IsReplay (RouteBy mux) (RuleBy fate) a.now
        → IsReplay (RouteBy mux) (RuleBy fate) b.now
        → a.now.events ≡ b.now.events }
{}

/// After the same events of a replay, with the same answers, only one event can come next.
pub fn one_next(stage: &Stage)
    ensures { (mux : ℕ → Flow → ℕ) (fates : List Fate) (past : List Event) (a b : Event)
        → IsNextIn mux fates stage.now past a
        → IsNextIn mux fates stage.now past b
        → a ≡ b }
{}

/// A bound on a replay of a sound stage whose sendings have at most three copies each, at most a
/// minute late. It has at most 40 events for each of 200,000 packets and 65 for each of 65,536
/// commands, and its clocks are at most 6 × 10^18 nanoseconds.
pub fn short_replay(stage: &Stage)
    requires { IsSound stage.now }
    ensures events { (fates : List Fate) (past : List Event)
        → Follows fates stage.now past → AreSoon fates past → length past ≤ 12259840 }
    ensures clocks { (fates : List Fate) (past : List Event)
        → Follows fates stage.now past → AreSoon fates past → last_clock past ≤ 6 * 10 ^ 18 }
{}

/// What a server knows of a flow follows from the turns of the flow's shard.
pub fn shard_book(stage: &Stage)
    ensures { (past : List Event) (s : ServerId) (f : Flow)
        → let book = book_of stage.now past s (shard stage.now f) in
        local_at stage.now past s f ≡ book_local stage.now.script.setting.capacity book f }
{}

/// The flows that count against a shard's capacity are those of the shard that its server holds,
/// each once.
pub fn held_flows(stage: &Stage)
    ensures held { (past : List Event) (s : ServerId) (h : ℕ) (f : Flow)
        → is_listed (flows_held stage.now past s h) f
        ≡ (shard stage.now f == h && is_some (held stage.now past s f)) }
    ensures once { (past : List Event) (s : ServerId) (h : ℕ)
        → AreDistinct (flows_held stage.now past s h) }
{}

/// A mux's version, and the label of each packet that has one, follow from the mux's own log.
pub fn mux_log(stage: &Stage)
    ensures version { (past : List Event) (m : MuxId)
        → version_at (log_of stage.now past (MuxOf m.0)) m ≡ version_at past m }
    ensures label { (past : List Event) (k : ℕ) (l : Label)
        → label_of stage.now past k ≡ Some l
        → label_of stage.now (log_of stage.now past (MuxOf l.mux.0)) k ≡ Some l }
{}
