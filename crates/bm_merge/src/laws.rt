//! The laws of merging. Each is a function that does nothing: its contract is the law.
ghost use Rattle.std.specs.Prelude.{◌≡◌, ◌<◌, ◌≤◌, ◌+◌, IfSome, List, length, reverse};
ghost use Rattle.bm_route.specs.Routes.{Answers};
ghost use Rattle.bm_fault.specs.Faults.{Gives, IsRule};
ghost use Rattle.bm_core.specs.Threads.{IsThreadedRun};
ghost use Rattle.bm_core.specs.Runs.{IsRun, event_at};
ghost use Rattle.bm_merge.specs.Merges.{Agree, ArePaced, Log, highest, merged};
ghost use Rattle.bm_merge.specs.Notes.{Note, NotedLog, plain};
ghost use Rattle.bm_merge.specs.Workers.{ArePromises, AreUnderway};

use bm_base::{Fate, Flow, Hop};
use bm_core::History;
use bm_fault::Faults;
use bm_route::Route;

/// Logs that agree merge into a run.
pub fn merges(h: &History)
    ensures { (logs : List Log)
        → Agree h.now.stage logs → h.now.events ≡ reverse (merged logs) → IsRun h.now }
{}

/// Logs whose workers keep their promises, by any route and any impairment rule, merge into a
/// threaded run with every packet, copy and command accounted for.
pub fn threaded<R: Fn(u32, &Flow) -> u16, F: Fn(u32, Hop) -> Fate>(
    h: &History,
    route: &Route<R>,
    faults: &Faults<F>,
)
    ensures { (logs : List NotedLog) (controller : List Note) (carriers : List (List Note))
        → ArePromises (Answers R.Fn route.now.rule) (Gives F.Fn faults.now.rule) h.now.stage logs
        controller carriers
        → h.now.events ≡ reverse (merged (plain logs))
        → IsThreadedRun (Answers R.Fn route.now.rule) (Gives F.Fn faults.now.rule) h.now }
{}

/// If each clock follows earlier ones by a short delay, no clock is large.
pub fn bounded(h: &History, place: usize)
    requires within { place < length h.now.events }
    requires paced { ArePaced (reverse h.now.events) }
    ensures { IfSome (event_at h.now place) (λ e. e.clock.0 ≤ highest (place + 1)) }
{}

/// The same holds for logs in progress, also if a worker has given up.
pub fn underway<F: Fn(u32, Hop) -> Fate>(h: &History, faults: &Faults<F>, place: usize)
    requires faults { IsRule F.Fn faults.now.rule }
    ensures { (logs : List NotedLog) (controller : List Note) (carriers : List (List Note))
        → AreUnderway (Gives F.Fn faults.now.rule) h.now.stage logs controller carriers
        → h.now.events ≡ reverse (merged (plain logs))
        → IfSome (event_at h.now place) (λ e. e.clock.0 ≤ highest (place + 1)) }
{}
