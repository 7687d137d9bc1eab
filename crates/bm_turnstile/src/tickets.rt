//! The tickets of a turnstile, and one turn of a seat's place.
ghost use Rattle.std.specs.Prelude.{◌≡◌, ◌+◌, ◌^◌, ◌<◌, true, false, Some, None, [], ◌∷◌, length};
ghost use Rattle.std.specs.Prelude.{IfOk, OnErr};
ghost use Rattle.bm_turnstile.specs.declared.view.Stage.TheVariants.{Waiting};
ghost use Rattle.bm_turnstile.specs.Inside.Rule.{Closes, Hands, NumberedFrom, Takes};
ghost use Rattle.bm_turnstile.specs.Inside.Rule.{has_drawn, has_handed_on};
ghost use Rattle.bm_turnstile.specs.Seen.{SeesMore, Turned};
ghost use Rattle.bm_turnstile.specs.Views.{IsIdle, IsResting, IsSameSeat};
ghost use Rattle.bm_turnstile.specs.Views.{first_view, gave, joined, new_view, sitting};

use crate::booked::Booked;
use crate::rule::{Advance, Draw, Give, Look, Place, TakeOver, TicketRule};
use crate::view::View;
use atomic_table::Table;
use bm_base::Memory;
use std::alloc::Global;
use std::snapshot::Snapshot;
use std::sync::Wait;

/// How often a thread looks before it sleeps: about 10 microseconds, as a turn takes less than one.
/// It doesn't pause in between, since a virtual machine may take the processor from a thread that
/// does.
const LOOKS: u32 = 5_000;

/// Word 0 is the next ticket, word 1 the one being served, and the only slot has the state.
#[derive(Drop)]
pub struct Tickets<T: Booked + Drop> {
    pub table: Table<Option<T>, View<T::Fixed, T::Entry>, Snapshot<T>, TicketRule<T>, Global>,
    ghost sized: { (table.shared.table_id.words ≡ 2) × (table.shared.table_id.slots ≡ 1) },
}

/// A vector of this item.
pub(crate) fn alone<S: Drop>(alloc: Global, item: S) -> Result<Vec<S>, Memory>
    ensures { IfOk result (λ items. items.items ≡ item ∷ []) }
{
    let mut items = Vec::new(alloc);
    items.push(item)?;
    Ok(items)
}

impl<T: Booked + Drop> Tickets<T> {
    /// The tickets of a state, and the first seat's place. `Memory` where memory was refused; the
    /// state is then dropped.
    pub(crate) fn open(alloc: Global, state: T) -> Result<(Tickets<T>, Place<T>), Memory>
        requires empty { T.entries state ≡ [] }
        requires replays { T.replays (T.fixed state) [] }
        ensures own { IfOk result (λ r. r.1.table_id ≡ r.0.table.shared.table_id) }
        ensures view { IfOk result (λ r. r.1.me ≡ (first_view (T.fixed state), [])) }
    {
        let about = Snapshot::of(&state);
        let slots = alone(alloc, Some(state))?;
        let Ok((table, place)) = Table::new(alloc, &[0, 0], slots, &about) else {
            return Err(Memory);
        };
        Ok((Tickets { table }, place))
    }

    /// The place of a new seat, which has seen nothing.
    pub(crate) fn split(&self, first: &mut Place<T>) -> Place<T>
        requires own { first.old.table_id ≡ self.now.table.shared.table_id }
        requires idle { IsIdle first.old.me.0 }
        requires first { first.old.me.0.number ≡ 0 }
        requires few { first.old.me.0.given < 65535 }
        requires alone { first.old.me.0.olds ≡ [] }
        ensures own { first.new.table_id ≡ first.old.table_id }
        ensures view { first.new.me ≡ (gave first.old.me.0, first.old.me.1) }
        ensures place { result.table_id ≡ first.old.table_id }
        ensures new { result.me ≡ (new_view first.old.me.0, []) }
    {
        self.table.shared.split_seat::<Give>(first)
    }

    // Draws the next ticket.
    fn draw(&self, seat: &mut Place<T>) -> u64
        requires own { seat.old.table_id ≡ self.now.table.shared.table_id }
        requires idle { IsIdle seat.old.me.0 }
        requires alone { seat.old.me.0.olds ≡ [] }
        requires few { seat.old.me.0.turns < 4294967295 }
        ensures own { seat.new.table_id ≡ seat.old.table_id }
        ensures view { seat.new.me ≡ (has_drawn seat.old.me.0 result, seat.old.me.1) }
        ensures small { result + 1 < 2 ^ 48 }
    {
        self.table.shared.fetch_add::<Draw>(seat, 0, 1)
    }

    // Looks a few times whether the ticket is served, and takes the state if it is.
    fn look(&self, seat: &mut Place<T>, ticket: u64) -> bool
        requires own { seat.old.table_id ≡ self.now.table.shared.table_id }
        requires waits { seat.old.me.0.stage ≡ Waiting ticket }
        ensures own { seat.new.table_id ≡ seat.old.table_id }
        ensures served { result ≡ true
            → Takes T.entries T.fixed T.replays T.seat_of seat.old.me ticket seat.new.me }
        ensures waits { result ≡ false → seat.new.me ≡ seat.old.me }
    {
        for _ in 0..LOOKS {
            if self.table.shared.load::<Look<T>>(seat, 1) == ticket {
                return true;
            }
        }
        false
    }

    // Waits until the ticket is served, and takes the state.
    fn wait<R: Wait>(&self, rt: &R, seat: &mut Place<T>, ticket: u64)
        requires own { seat.old.table_id ≡ self.now.table.shared.table_id }
        requires waits { seat.old.me.0.stage ≡ Waiting ticket }
        ensures own { seat.new.table_id ≡ seat.old.table_id }
        ensures served { Takes T.entries T.fixed T.replays T.seat_of seat.old.me ticket
            seat.new.me }
    {
        for _ in rt.forever() {
            if self.look(seat, ticket) {
                return;
            }
            let served = self.table.shared.peek(1);
            if served != ticket {
                self.table.shared.park(rt, 1, (served % (1 << 32)) as u32);
            }
        }
        unreachable!()
    }

    // Gives the state back, and serves the next ticket. A thread can wait for it only if it was
    // drawn.
    fn hand_on(&self, seat: &mut Place<T>, ticket: u64, state: T)
        requires own { seat.old.table_id ≡ self.now.table.shared.table_id }
        requires small { ticket + 1 < 2 ^ 48 }
        requires hands { Hands T.entries T.fixed T.replays T.seat_of seat.old.me.0 ticket state }
        requires slot { seat.old.me.1 ≡ (0, None) ∷ [] }
        ensures own { seat.new.table_id ≡ seat.old.table_id }
        ensures view { seat.new.me ≡ (has_handed_on seat.old.me.0 (T.entries state), []) }
    {
        let None = self.table.shared.exchange(seat, 0, Some(state)) else {
            unreachable!()
        };
        self.table.shared.store::<Advance<T>>(seat, 1, ticket + 1);
        if self.table.shared.peek(0) != ticket + 1 {
            self.table.shared.wake_all(1);
        }
    }

    /// One turn. It waits until its ticket is served.
    pub(crate) fn turn<R: Wait>(
        &self,
        rt: &R,
        seat: &mut Place<T>,
        number: u16,
        call: T::Call,
    ) -> Result<T::Reply, Memory>
        requires own { seat.old.table_id ≡ self.now.table.shared.table_id }
        requires rests { IsResting seat.old.me number }
        requires few { seat.old.me.0.turns < 4294967295 }
        requires taken { (x : _) → seat.old.me.0.fixed ≡ Some x → T.takes x call }
        ensures own { seat.new.table_id ≡ seat.old.table_id }
        ensures rests { IsResting seat.new.me number }
        ensures same { IsSameSeat seat.old.me.0 seat.new.me.0 }
        ensures ok { let old = sitting seat.old.table_id seat.old.me.0 in
            let new = sitting seat.new.table_id seat.new.me.0 in
            IfOk result (Turned T.seat_of T.call_of T.reply old new call) }
        ensures memory { let old = sitting seat.old.table_id seat.old.me.0 in
            let new = sitting seat.new.table_id seat.new.me.0 in
            OnErr result (SeesMore T.seat_of old new) }
    {
        let ticket = self.draw(seat);
        self.wait(rt, seat, ticket);
        let Some(mut state) = self.table.shared.exchange(seat, 0, None) else {
            unreachable!()
        };
        let answer = state.apply(number, call);
        self.hand_on(seat, ticket, state);
        answer
    }

    /// The first seat takes over what another has seen; the other is given back.
    pub(crate) fn join(&self, first: &mut Place<T>, other: Place<T>)
        requires own { first.old.table_id ≡ self.now.table.shared.table_id }
        requires idle { IsIdle first.old.me.0 }
        requires first { first.old.me.0.number ≡ 0 }
        requires other { (other.table_id ≡ self.now.table.shared.table_id) × (other.me.1 ≡ []) }
        requires other_idle { IsIdle other.me.0 }
        ensures own { first.new.table_id ≡ first.old.table_id }
        ensures view { first.new.me ≡ (joined first.old.me.0 other.me.0, first.old.me.1) }
    {
        self.table.shared.join_seat::<TakeOver>(first, other);
    }

    /// The state, once every other seat was given back to the first.
    pub(crate) fn close(self, first: Place<T>) -> T
        requires own { first.table_id ≡ self.table.shared.table_id }
        requires idle { IsIdle first.me.0 }
        requires first { first.me.0.number ≡ 0 }
        requires numbered { NumberedFrom 1 first.me.0.olds }
        requires all { first.me.0.given ≡ length first.me.0.olds + 1 }
        ensures { Closes T.entries T.fixed T.replays T.seat_of first.me.0 result }
    {
        let Tickets { table } = self;
        let mut closed = table.close_with(first);
        let slot = closed.take(0);
        closed.free();
        let Some(state) = slot else { unreachable!() };
        state
    }
}
