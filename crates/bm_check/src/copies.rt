//! Whether each packet and each copy is accounted for.
ghost use Rattle.std.specs.Prelude.{◌≡◌, ◌<◌, ◌≤◌, ◌*◌, ◌^◌, ℕ, List, All, IfOk, IfSome, MatchBool, is_some, length};
ghost use Rattle.std.specs.Prelude.{reverse, suc, true};
ghost use Rattle.std.specs.Bool.{Decides};
ghost use Rattle.bm_base.specs.declared.fate.Fate.{Fate};
ghost use Rattle.bm_base.specs.declared.label.Hop.TheVariants.{Direct};
ghost use Rattle.bm_core.specs.Accounts.{AreSent, lost_at};
ghost use Rattle.bm_core.specs.Past.{is_sent, segment_of, sending_of};
ghost use Rattle.bm_core.specs.declared.events.Event.{Event};
ghost use Rattle.bm_fault.specs.Faults.{Gives, IsRule};
ghost use Rattle.bm_state.specs.Losses.{KeepsLosses};
ghost use Rattle.bm_state.specs.Tallies.{KeepsTallies};
ghost use Rattle.bm_check.specs.Inside.Copies.{AreFated, HasArrived, IsLost, IsLossSettled, IsOne};
ghost use Rattle.bm_check.specs.Inside.Copies.{IsSendingSettled, IsSentBefore, IsSettled};

use bm_base::{Fate, Hop, Memory, Moment};
use bm_core::{Event, Stage, What};
use bm_fault::Faults;
use bm_state::{Losses, Tallies, sending_of};
use std::alloc::Global;

/// The number of copies of these sendings. No list of events comes near the end of the type.
fn all_copies(copies: u8, sendings: u64) -> u64
    ensures { copies ≤ 3 → sendings < 2 ^ 62 → result ≡ copies * sendings }
{
    u64::from(copies).saturating_mul(sendings)
}

/// The fate of what the event sends; of an event that sends nothing any fate will do.
fn ask<F: Fn(u32, Hop) -> Fate>(faults: &Faults<F>, what: What) -> Fate
    requires { IsRule F.Fn faults.now.rule }
    ensures { IfSome (sending_of what)
        (λ s. Gives F.Fn faults.now.rule s.packet s.hop result) }
{
    match sending_of(what) {
        Some(sending) => faults.fate(sending.packet, sending.hop),
        None => Fate {
            copies: 1,
            delay: 0,
        },
    }
}

/// Whether the event, if it is an arrival, is of one more copy that was sent before it.
fn is_sent_before<F: Fn(u32, Hop) -> Fate>(
    faults: &Faults<F>,
    tallies: &Tallies,
    what: What,
) -> bool
    requires { IsRule F.Fn faults.now.rule }
    ensures { (past : List Event) (fates : List Fate) → length past < 2 ^ 62
        → KeepsTallies past tallies.now → IsOne (Gives F.Fn faults.now.rule)
        → AreFated (Gives F.Fn faults.now.rule) fates past
        → Decides result (IsSentBefore fates past what) }
{
    match what {
        What::Arrive { packet, hop, .. } => {
            let tally = tallies.of(packet, hop);
            let fate = faults.fate(packet, hop);
            tally.arrivals < all_copies(fate.copies, tally.sendings)
        }
        What::Publish(_)
        | What::Switch { .. }
        | What::Steer { .. }
        | What::Lose { .. }
        | What::Close { .. }
        | What::Retire { .. }
        | What::Sync => true,
    }
}

/// Whether each arrival among these events is of a copy that was sent before it.
pub(crate) fn are_sent<F: Fn(u32, Hop) -> Fate>(
    alloc: Global,
    faults: &Faults<F>,
    events: &[Event],
) -> Result<bool, Memory>
    requires rule { IsRule F.Fn faults.now.rule }
    requires sure { IsOne (Gives F.Fn faults.now.rule) }
    requires few { length events.now < 2 ^ 62 }
    ensures { IfOk result (λ are. MatchBool are
        ((fates : List Fate) × AreFated (Gives F.Fn faults.now.rule) fates (reverse events.now)
        × AreSent fates (reverse events.now))
        ((fates : List Fate) → AreFated (Gives F.Fn faults.now.rule) fates (reverse events.now)
        → AreSent fates (reverse events.now) → ⊥)) }
{
    let mut tallies = Tallies::new(alloc);
    for event in events {
        if !is_sent_before(faults, &tallies, event.what) {
            return Ok(false);
        }
        let _fate = ask(faults, event.what);
        tallies.observe(event.what)?;
    }
    Ok(true)
}

/// Whether the copies of the packet that arrived with this hop are as many as were sent.
fn has_arrived<F: Fn(u32, Hop) -> Fate>(
    faults: &Faults<F>,
    tallies: &Tallies,
    packet: u32,
    hop: Hop,
) -> bool
    requires { IsRule F.Fn faults.now.rule }
    ensures { (all : List Event) (fates : List Fate) → length all < 2 ^ 62
        → KeepsTallies all tallies.now → IsOne (Gives F.Fn faults.now.rule)
        → AreFated (Gives F.Fn faults.now.rule) fates all
        → Decides result (HasArrived fates all packet hop) }
{
    let tally = tallies.of(packet, hop);
    let fate = faults.fate(packet, hop);
    tally.arrivals == all_copies(fate.copies, tally.sendings)
}

/// Whether the packet was never lost with this hop just after this clock.
fn is_kept(losses: &Losses, packet: u32, hop: Hop, clock: Moment) -> bool
    ensures { (all : List Event) → KeepsLosses all losses.now
        → Decides result (lost_at all packet hop (suc clock.0) ≡ 0) }
{
    if losses.are_none() {
        return true;
    }
    losses.of(packet, hop, clock) == 0
}

/// Whether the packet was lost with this hop just as often as it was sent at this clock without
/// copies.
fn is_lost<F: Fn(u32, Hop) -> Fate>(
    faults: &Faults<F>,
    losses: &Losses,
    packet: u32,
    hop: Hop,
    clock: Moment,
) -> bool
    requires { IsRule F.Fn faults.now.rule }
    ensures { (all : List Event) (fates : List Fate) → KeepsLosses all losses.now
        → IsOne (Gives F.Fn faults.now.rule) → AreFated (Gives F.Fn faults.now.rule) fates all
        → Decides result (IsLost fates all packet hop clock.0) }
{
    let fate = faults.fate(packet, hop);
    if fate.copies == 0 {
        losses.are_all(packet, hop, clock)
    } else {
        is_kept(losses, packet, hop, clock)
    }
}

/// Whether the copies of what the event sends have arrived or are lost.
fn is_sending_settled<F: Fn(u32, Hop) -> Fate>(
    faults: &Faults<F>,
    tallies: &Tallies,
    losses: &Losses,
    event: &Event,
) -> bool
    requires { IsRule F.Fn faults.now.rule }
    ensures { (all : List Event) (fates : List Fate) → length all < 2 ^ 62
        → KeepsTallies all tallies.now → KeepsLosses all losses.now
        → IsOne (Gives F.Fn faults.now.rule) → AreFated (Gives F.Fn faults.now.rule) fates all
        → Decides result (IsSendingSettled fates all event.now) }
{
    match sending_of(event.what) {
        Some(sent) => {
            if !has_arrived(faults, tallies, sent.packet, sent.hop) {
                return false;
            }
            is_lost(faults, losses, sent.packet, sent.hop, event.clock)
        }
        None => true,
    }
}

/// Whether the event, if it is a loss, is one of as many as were sent without copies.
fn is_loss_settled<F: Fn(u32, Hop) -> Fate>(
    faults: &Faults<F>,
    losses: &Losses,
    event: &Event,
) -> bool
    requires { IsRule F.Fn faults.now.rule }
    ensures { (all : List Event) (fates : List Fate) → KeepsLosses all losses.now
        → IsOne (Gives F.Fn faults.now.rule) → AreFated (Gives F.Fn faults.now.rule) fates all
        → Decides result (IsLossSettled fates all event.now.what event.now.clock.0) }
{
    match event.what {
        What::Lose { packet, hop } => {
            if event.clock.0 == 0 {
                return true;
            }
            is_lost(faults, losses, packet, hop, Moment(event.clock.0 - 1))
        }
        What::Publish(_)
        | What::Switch { .. }
        | What::Steer { .. }
        | What::Arrive { .. }
        | What::Close { .. }
        | What::Retire { .. }
        | What::Sync => true,
    }
}

/// Whether the copies of all sendings have arrived or are lost, and there are no other losses.
pub(crate) fn are_settled<F: Fn(u32, Hop) -> Fate>(
    faults: &Faults<F>,
    tallies: &Tallies,
    losses: &Losses,
    events: &[Event],
) -> bool
    requires { IsRule F.Fn faults.now.rule }
    ensures { (all : List Event) (fates : List Fate) → length all < 2 ^ 62
        → KeepsTallies all tallies.now → KeepsLosses all losses.now
        → IsOne (Gives F.Fn faults.now.rule) → AreFated (Gives F.Fn faults.now.rule) fates all
        → Decides result (All (λ e. IsSettled fates all e) events.now) }
{
    for event in events {
        if !is_sending_settled(faults, tallies, losses, event) {
            return false;
        }
        if !is_loss_settled(faults, losses, event) {
            return false;
        }
    }
    true
}

/// Whether the packet, if it is to be steered, was.
fn is_steered(stage: &Stage, tallies: &Tallies, packet: u32) -> bool
    ensures { (all : List Event) → KeepsTallies all tallies.now
        → Decides result (is_some (segment_of stage.now packet) ≡ true
        → is_sent all packet Direct ≡ true) }
{
    match stage.segment(packet) {
        Some(_) => tallies.is_sent(packet, Hop::Direct),
        None => true,
    }
}

/// Whether all packets that are to be steered were.
pub(crate) fn are_steered(stage: &Stage, tallies: &Tallies) -> bool
    requires { length stage.now.capture.records ≤ 200000 }
    ensures { (all : List Event) → KeepsTallies all tallies.now
        → Decides result ((k : ℕ) → is_some (segment_of stage.now k) ≡ true
        → is_sent all k Direct ≡ true) }
{
    let records = stage.capture.records.items();
    for place in 0..records.len() {
        if !is_steered(stage, tallies, place as u32 + 1) {
            return false;
        }
    }
    true
}
