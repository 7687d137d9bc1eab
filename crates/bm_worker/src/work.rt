//! The workers of the muxes, in parallel.
ghost use Rattle.std.specs.Prelude.{◌≡◌, ℕ, All, Some, length, slice_get};
ghost use Rattle.bm_fault.specs.Faults.{IsRule};
ghost use Rattle.bm_worker.specs.declared.worker.MuxWorker.{MuxWorker as Worker};
ghost use Rattle.bm_worker.specs.Environments.{In};
ghost use Rattle.bm_worker.specs.Phases.{CanWork, HasWorked};

use crate::{MuxWorker, Shared, Span};
use bm_base::{Fate, Hop};
use bm_io::Gate;
use std::sync::Wait;
use std::thread;
use std::thread::Threads;

impl MuxWorker {
    /// Does the worker's part of the phase, if it hasn't given up.
    fn work<W: Wait, F: Fn(u32, Hop) -> Fate, G: Gate>(
        &mut self,
        rt: &W,
        shared: &Shared<'_, F, G>,
        span: Span,
    )
        requires rule { IsRule F.Fn shared.now.rule }
        requires can { CanWork shared.now.stage shared.now.servers shared.now.routes span self.old }
        ensures { In F.Fn shared.now HasWorked shared.now.routes span self.old self.new }
    {
        if self.stop.is_some() {
            return;
        }
        self.stop = self.carry_phase(rt, shared, span).err();
    }
}

/// Has each worker that hasn't given up do its part of the phase, all in parallel, and waits for
/// all of them.
pub fn work_all<W: Threads + Wait + Sync, F: Fn(u32, Hop) -> Fate + Sync, G: Gate>(
    rt: &W,
    shared: &Shared<'_, F, G>,
    span: Span,
    workers: &mut [MuxWorker],
)
    requires rule { IsRule F.Fn shared.now.rule }
    requires can { All (CanWork shared.now.stage shared.now.servers shared.now.routes span)
        workers.old }
    ensures count { length workers.new ≡ length workers.old }
    ensures each { (i : ℕ) (old new : Worker) → slice_get workers.old i ≡ Some old
        → slice_get workers.new i ≡ Some new
        → In F.Fn shared.now HasWorked shared.now.routes span old new }
{
    let threads = workers.len().max(1);
    thread::for_each_mut(
        rt,
        workers,
        threads,
        &|_, me: &mut MuxWorker|
            requires { IsRule F.Fn shared.now.rule
                × CanWork shared.now.stage shared.now.servers shared.now.routes span me.now }
            ensures { In F.Fn shared.entry.now HasWorked shared.entry.now.routes span me.entry.now
                me.exit.now }
        { me.work(rt, shared, span) },
    );
}
