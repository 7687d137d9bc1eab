//! How a worker delivers what was sent.
ghost use Rattle.std.specs.Prelude.{◌≡◌, ◌+◌, ◌*◌, ◌^◌, ◌≤◌, IfOk, IsOk, MatchResult, Ok as ok, Some};
ghost use Rattle.bm_encap.specs.Faults.{chained};
ghost use Rattle.bm_base.specs.Labels.{hop_after};
ghost use Rattle.bm_core.specs.Inside.Weights.{hop_weight};
ghost use Rattle.bm_fault.specs.Faults.{IsRule};
ghost use Rattle.bm_worker.specs.declared.stop.Stop.TheVariants.{Memory as stopped};
ghost use Rattle.bm_worker.specs.Environments.{In};
ghost use Rattle.bm_worker.specs.Inside.Pending.{CanSend, Carries, CarriesOne, HasSent, IsLateFrom};
ghost use Rattle.bm_worker.specs.Inside.Pending.{IsWithinLimits, copy_lost, pending, most_lost};
ghost use Rattle.bm_worker.specs.Inside.Pending.{most_tries};
ghost use Rattle.bm_worker.specs.Inside.Sendings.{HasCopy, IsForwardedBy, pending_of};
ghost use Rattle.bm_worker.specs.Inside.Lost.{with_loss};

use crate::place::place_of;
use crate::{MuxWorker, Shared, Stop};
use bm_base::{Fate, Hop, LAST, Memory, Moment, ServerId};
use bm_core::Verdict;
use bm_encap::set_chained;
use std::alloc::Global;
use std::sync::Wait;

/// A sending: a packet's octets, sent at this clock to the server at a place, and what becomes of
/// them.
#[derive(Clone, Copy)]
pub(crate) struct Sending<'a> {
    pub(crate) packet: u32,
    pub(crate) hop: Hop,
    pub(crate) place: usize,
    pub(crate) octets: &'a [u8],
    pub(crate) clock: Moment,
    pub(crate) fate: Fate,
}

/// When the copies of a sending at this clock are due.
fn due_of(clock: Moment, fate: Fate) -> Result<Moment, Stop>
    requires { fate.delay ≤ 60 * 10 ^ 9 }
    ensures { MatchResult result (λ due. (due.0 ≡ clock.0 + fate.delay) × (due.0 ≤ 9 * 10 ^ 18))
        (λ stop. IsLateFrom clock.0 stop) }
{
    let due = clock.0.saturating_add(fate.delay);
    if due > LAST {
        return Err(Stop::Late {
            moment: Moment(due),
            clock,
        });
    }
    Ok(Moment(due))
}

/// The octets of a copy, rewritten for the next hop.
fn turned(alloc: Global, octets: &[u8]) -> Result<Vec<u8>, Memory>
    requires { IsOk (chained octets.now) }
    ensures { IfOk result (λ next. chained octets.now ≡ ok next.items) }
{
    let mut next = Vec::new(alloc);
    next.extend_from_slice(octets)?;
    match set_chained(&mut next) {
        Ok(()) => Ok(next),
        Err(_) => unreachable!(),
    }
}

impl MuxWorker {
    /// Logs that a sending at this clock has no copies.
    fn lose(&mut self, packet: u32, hop: Hop, clock: Moment) -> Result<(), Stop>
        requires { clock.0 ≤ 9 * 10 ^ 18 }
        ensures { MatchResult result (λ _. self.new ≡ with_loss packet hop clock.0 self.old)
            (λ stop. (stop ≡ stopped) × (self.new ≡ self.old)) }
    {
        self.mux.lost(packet, hop, clock)?;
        self.caller.lose(clock);
        Ok(())
    }

    /// Sends a copy that was forwarded at this clock on to the server.
    #[cycle(sending)]
    fn forward<W: Wait, F: Fn(u32, Hop) -> Fate, G>(
        &mut self,
        rt: &W,
        shared: &Shared<'_, F, G>,
        sending: &Sending<'_>,
        next: Hop,
        to: ServerId,
        clock: Moment,
        fate: Fate,
    ) -> Result<(), Stop>
        requires rule { IsRule F.Fn shared.now.rule }
        requires next { hop_after sending.now.hop ≡ Some next }
        requires onward { IsForwardedBy shared.now.stage shared.now.servers self.old.mux sending.now
            to }
        requires can { CanSend shared.now.servers (most_tries next) self.old }
        requires fate { IsWithinLimits fate }
        ensures sent { HasSent (most_lost next) (most_tries next) self.old self.new }
        ensures carries { let d = pending sending.now.packet next clock.0 fate in
            In F.Fn shared.now Carries d (most_tries next) self.old self.new result }
    {
        let Some(place) = place_of(shared.servers(), to) else {
            unreachable!();
        };
        let octets = turned(shared.alloc(), sending.octets)?;
        let onward = Sending {
            packet: sending.packet,
            hop: next,
            place,
            octets: &octets,
            clock,
            fate,
        };
        self.send(rt, shared, &onward)
    }

    /// Delivers one copy of a sending, and what is forwarded of it.
    #[cycle(sending)]
    fn carry_copy<W: Wait, F: Fn(u32, Hop) -> Fate, G>(
        &mut self,
        rt: &W,
        shared: &Shared<'_, F, G>,
        sending: &Sending<'_>,
        due: Moment,
    ) -> Result<(), Stop>
        requires rule { IsRule F.Fn shared.now.rule }
        requires copy { HasCopy shared.now.stage shared.now.servers self.old.mux sending.now }
        requires can { CanSend shared.now.servers (hop_weight sending.now.hop) self.old }
        requires due { (due.0 ≡ sending.now.clock.0 + sending.now.fate.delay)
            × (due.0 ≤ 9 * 10 ^ 18) }
        ensures sent { HasSent (copy_lost sending.now.hop) (hop_weight sending.now.hop) self.old
            self.new }
        ensures carries { In F.Fn shared.now CarriesOne (pending_of sending.now)
            (hop_weight sending.now.hop) self.old self.new result }
    {
        let (clock, verdict) = self.caller.arrive(
            rt,
            shared.servers(),
            sending.place,
            sending.packet,
            sending.octets,
            due,
        )?;
        let Verdict::Forward(to) = verdict else {
            return Ok(());
        };
        let Some(next) = sending.hop.next() else {
            unreachable!();
        };
        let fate = shared.fate(sending.packet, next);
        self.forward(rt, shared, sending, next, to, clock, fate)
    }

    /// Delivers the copies of a sending, and what is forwarded of them; or loses the sending.
    #[cycle(sending)]
    pub(crate) fn send<W: Wait, F: Fn(u32, Hop) -> Fate, G>(
        &mut self,
        rt: &W,
        shared: &Shared<'_, F, G>,
        sending: &Sending<'_>,
    ) -> Result<(), Stop>
        requires rule { IsRule F.Fn shared.now.rule }
        requires copy { HasCopy shared.now.stage shared.now.servers self.old.mux sending.now }
        requires can { CanSend shared.now.servers (most_tries sending.now.hop) self.old }
        requires fate { IsWithinLimits sending.now.fate }
        ensures sent { HasSent (most_lost sending.now.hop) (most_tries sending.now.hop) self.old
            self.new }
        ensures carries { In F.Fn shared.now Carries (pending_of sending.now)
            (most_tries sending.now.hop) self.old self.new result }
    {
        let due = due_of(sending.clock, sending.fate)?;
        if sending.fate.copies == 0 {
            return self.lose(sending.packet, sending.hop, sending.clock);
        }
        for _ in 0..sending.fate.copies {
            self.carry_copy(rt, shared, sending, due)?;
        }
        Ok(())
    }
}
