//! A mux's part of a phase: its first look, and then batch after batch.
ghost use Rattle.std.specs.Prelude.{◌≡◌, ◌+◌, ◌-◌, ◌<◌, ◌≤◌, IfOk, MatchResult, length};
ghost use Rattle.std.specs.Prelude.{IsSome, Some};
ghost use Rattle.bm_publish.specs.Posts.{Posted};
ghost use Rattle.bm_fault.specs.Faults.{IsRule};
ghost use Rattle.bm_mux.specs.Muxes.{IsSameMux};
ghost use Rattle.bm_worker.specs.Environments.{In};
ghost use Rattle.bm_worker.specs.Inside.Batches.{CanCarry, CarriesTo, EndsAs, GrowsBy};
ghost use Rattle.bm_worker.specs.WorkerNotes.{IsSameCaller};
ghost use Rattle.bm_worker.specs.Phases.{HasGrown, IsReady, task_of};

use crate::batch::collect;
use crate::{MuxWorker, Shared, Span, Stop};
use bm_base::{Fate, Hop, MuxId};
use bm_io::Gate;
use bm_mux::Steered;
use std::sync::Wait;

impl MuxWorker {
    /// The worker's mux. Takes no memory.
    fn mux_id(&self) -> MuxId
        requires { self.now.caller.number ≡ self.now.mux.id.0 + 1 }
        ensures { result ≡ self.now.mux.id }
    {
        MuxId(self.caller.number() - 1)
    }

    /// Steers and delivers the next batch of the mux's packets among the records at the places
    /// `from..until`; returns the place after it. What was sent is put into `sents` in place of
    /// what was there.
    fn carry_batch<W: Wait, F: Fn(u32, Hop) -> Fate, G: Gate>(
        &mut self,
        rt: &W,
        shared: &Shared<'_, F, G>,
        sents: &mut Vec<Steered>,
        from: u32,
        until: u32,
    ) -> Result<u32, Stop>
        requires rule { IsRule F.Fn shared.now.rule }
        requires until { (from < until) × (until ≤ length shared.now.stage.capture.records) }
        requires can { CanCarry shared.now.stage shared.now.servers (until - from) self.old }
        ensures more { IfOk result (λ end. (from < end) × (end ≤ until)) }
        ensures mux { IsSameMux self.old.mux self.new.mux }
        ensures caller { IsSameCaller self.old.caller self.new.caller }
        ensures grows { MatchResult result (λ end. GrowsBy (end - from) self.old self.new)
            (λ _. GrowsBy (until - from) self.old self.new) }
        ensures carries { In F.Fn shared.now CarriesTo shared.now.routes from until self.old
            self.new result }
    {
        let batch = collect(shared, self.mux_id(), from, until)?;
        sents.clear();
        if batch.items.is_empty() {
            return Ok(batch.end);
        }
        self.mux.batch(&batch.items, sents)?;
        self.caller.see(self.mux.clock());
        self.deliver(rt, shared, sents, &batch.fates)?;
        Ok(batch.end)
    }

    /// Carries the mux's packets of the phase, by looks that show the posts that the worker knows
    /// of, and maybe later ones.
    pub(crate) fn carry_phase<W: Wait, F: Fn(u32, Hop) -> Fate, G: Gate>(
        &mut self,
        rt: &W,
        shared: &Shared<'_, F, G>,
        span: Span,
    ) -> Result<(), Stop>
        requires rule { IsRule F.Fn shared.now.rule }
        requires posted { IsSome self.old.posted }
        requires ready { (posted : Posted) → self.old.posted ≡ Some posted
            → IsReady shared.now.stage shared.now.servers
            (task_of shared.now.routes span posted self.old) }
        ensures grown { (posted : Posted) → self.old.posted ≡ Some posted
            → HasGrown (task_of shared.now.routes span posted self.old) self.new }
        ensures ended { (posted : Posted) → self.old.posted ≡ Some posted
            → In F.Fn shared.now EndsAs (task_of shared.now.routes span posted self.old) self.new
            result }
    {
        let Some(posted) = self.posted.take() else {
            unreachable!();
        };
        self.mux.begin(posted, span.after)?;
        self.caller.see(self.mux.clock());
        let mut sents = Vec::new(shared.alloc());
        let mut next = span.from;
        while next < span.until {
            next = self.carry_batch(rt, shared, &mut sents, next, span.until)?;
        }
        Ok(())
    }
}
