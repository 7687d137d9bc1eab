//! The packets of a mux, in batches.
ghost use Rattle.std.specs.Prelude.{◌≡◌, ℕ, ◌+◌, ◌*◌, ◌^◌, ◌<◌, ◌≤◌, IfOk, All, Some, length};
ghost use Rattle.std.specs.Prelude.{is_some, slice_get, true};
ghost use Rattle.std.specs.List.{AllByRecursion};
ghost use Rattle.bm_fault.specs.Faults.{Gives, IsRule};
ghost use Rattle.bm_core.specs.Past.{segment_of};
ghost use Rattle.bm_core.specs.Threads.{record_moment};
ghost use Rattle.bm_worker.specs.Inside.Batches.{AreCollected, Delivers, IsItemOf, IsSent};
ghost use Rattle.bm_worker.specs.Environments.{In, IsSetUp};
ghost use Rattle.bm_worker.specs.Inside.Pending.{CanSend, HasSent, IsWithinLimits};
ghost use Rattle.bm_worker.specs.Phases.{tries_per_packet};
ghost use Rattle.bm_worker.specs.Assigned.{is_mux, assigned_mux};

use crate::place::place_of;
use crate::sends::Sending;
use crate::{MuxWorker, Shared, Stop};
use bm_base::{Fate, Hop, Memory, Moment, MuxId};
use bm_core::Stage;
use bm_io::Gate;
use bm_mux::{MuxItem, Steered};
use std::sync::Wait;

/// How many packets are steered under one look.
const BATCH: usize = 256;

/// Packets that a mux takes together, with the fates of their copies, and the place after them.
#[derive(Drop)]
pub(crate) struct Batch<'a> {
    pub(crate) items: Vec<MuxItem<'a>>,
    pub(crate) fates: Vec<Fate>,
    pub(crate) end: u32,
}

/// When the record at this place was captured.
fn moment_at(stage: &Stage, at: u32) -> Moment
    ensures { result.0 ≡ record_moment stage.now (at + 1) }
{
    match stage.capture.records.items().get(at as usize) {
        Some(record) => record.moment,
        None => Moment(0),
    }
}

/// The item of the packet of the record at this place, which is steerable, for the packet's mux.
fn item_at<'a, F, G>(shared: &Shared<'a, F, G>, at: u32) -> MuxItem<'a>
    requires at { at < length shared.now.stage.capture.records }
    requires steerable { is_some (segment_of shared.now.stage (at + 1)) ≡ true }
    ensures packet { result.packet ≡ at + 1 }
    ensures item { (m : ℕ) → is_mux (assigned_mux shared.now.routes (at + 1)) m ≡ true
        → IsItemOf shared.now.stage shared.now.routes m result }
{
    let stage = shared.stage();
    let packet = at + 1;
    let Some(segment) = stage.segment(packet) else {
        unreachable!();
    };
    MuxItem {
        packet,
        moment: moment_at(stage, at),
        segment,
        inner: shared.octets_at(at),
    }
}

/// The mux's packets among the records at the places `from..until`, at most as many as a batch has.
pub(crate) fn collect<'a, F: Fn(u32, Hop) -> Fate, G>(
    shared: &Shared<'a, F, G>,
    mux: MuxId,
    from: u32,
    until: u32,
) -> Result<Batch<'a>, Memory>
    requires rule { IsRule F.Fn shared.now.rule }
    requires until { (from < until) × (until ≤ length shared.now.stage.capture.records) }
    ensures more { IfOk result (λ batch. (from < batch.end) × (batch.end ≤ until)) }
    ensures all { IfOk result
        (λ batch. AreCollected (Gives F.Fn shared.now.rule) shared.now.stage shared.now.routes mux.0
        from batch.end batch.items.items batch.fates.items) }
    ensures set_up { IsSetUp shared.now }
{
    let room = ((until - from) as usize).min(BATCH);
    let mut items = Vec::with_capacity(shared.alloc(), room)?;
    let mut fates = Vec::with_capacity(shared.alloc(), room)?;
    for at in from..until {
        if items.len() == BATCH {
            return Ok(Batch {
                items,
                fates,
                end: at,
            });
        }
        if !shared.is_assigned_to(at, mux) {
            continue;
        }
        let item = item_at(shared, at);
        let fate = shared.fate(item.packet, Hop::Direct);
        items.push(item)?;
        fates.push(fate)?;
    }
    Ok(Batch {
        items,
        fates,
        end: until,
    })
}

/// The fate at this place.
fn fate_at(fates: &[Fate], at: usize) -> Fate
    requires { at < length fates.now }
    ensures { slice_get fates.now at ≡ Some result }
{
    fates[at]
}

impl MuxWorker {
    /// Delivers what was steered, in order.
    pub(crate) fn deliver<W: Wait, F: Fn(u32, Hop) -> Fate, G: Gate>(
        &mut self,
        rt: &W,
        shared: &Shared<'_, F, G>,
        sents: &[Steered],
        fates: &[Fate],
    ) -> Result<(), Stop>
        requires rule { IsRule F.Fn shared.now.rule }
        requires sents { AllByRecursion
            (IsSent shared.now.stage shared.now.servers self.old.mux) sents.now }
        requires fates { (length fates.now ≡ length sents.now) × All IsWithinLimits fates.now }
        requires can { CanSend shared.now.servers (tries_per_packet * length sents.now) self.old }
        requires steps { self.old.steps + length sents.now ≤ 4294967295 }
        ensures sent { HasSent (9 * length sents.now) (tries_per_packet * length sents.now) self.old
            (record self.new { steps = self.old.steps }) }
        ensures steps { self.new.steps ≤ self.old.steps + length sents.now }
        ensures delivers { In F.Fn shared.now Delivers sents.now fates.now self.old self.new result }
    {
        for (at, sent) in sents.iter().enumerate() {
            self.steps += 1;
            shared.come_to_gate(self.caller.number(), self.steps);
            let Some(place) = place_of(shared.servers(), sent.tag.dest) else {
                unreachable!();
            };
            let fate = fate_at(fates, at);
            let sending = Sending {
                packet: sent.packet,
                hop: Hop::Direct,
                place,
                octets: sent.octets.items(),
                clock: sent.clock,
                fate,
            };
            self.send(rt, shared, &sending)?;
        }
        Ok(())
    }
}
