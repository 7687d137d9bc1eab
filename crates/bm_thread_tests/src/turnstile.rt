//! Two threads at one turnstile.
ghost use Rattle.std.specs.Prelude.{◌≡◌, ◌∷◌, [], length, IfSome, IfOk};
ghost use Rattle.bm_turnstile.specs.Sittings.{who};

use bm_base::Memory;
use bm_turnstile::{Booked, TurnSeat, Turnstile};
use std::alloc::Global;
use std::sync::Wait;
use std::thread::{Threads, join};

#[derive(Clone, Copy)]
struct Made {
    seat: u16,
    call: u32,
}

/// It replies how many calls were made before.
#[derive(Drop)]
struct Tally {
    calls: Vec<Made>,
}

impl Booked for Tally {
    type Call = u32;

    type Reply = usize;

    type Fixed = ();

    type Entry = Made;

    ghost fixed = { λ _. tt };

    ghost entries = { λ tally. tally.calls.items };

    ghost seat_of = { λ made. made.seat };

    ghost call_of = { λ made. made.call };

    ghost takes = { λ _ _. Unit {0} };

    ghost reply = { λ _ entries _ _. length entries };

    ghost replays = { λ _ _. Unit {0} };

    fn apply(&mut self, seat: u16, call: u32) -> Result<usize, Memory> {
        let before = self.calls.len();
        self.calls.push(Made { seat, call })?;
        Ok(before)
    }
}

fn make_calls<R: Wait>(
    rt: &R,
    turnstile: &Turnstile<Tally>,
    seat: TurnSeat<Tally>,
) -> TurnSeat<Tally>
    requires own { seat.table ≡ turnstile.now }
    requires turns { seat.turns ≡ 0 }
    ensures who { who result ≡ who seat }
{
    let mut mine = seat;
    for call in 0..1000u32 {
        let _ = turnstile.turn(rt, &mut mine, call);
    }
    mine
}

fn three<S: Drop>(all: Vec<S>) -> Option<(S, S, S)>
    ensures { IfSome result (λ t. all.items ≡ t.0 ∷ t.1 ∷ t.2 ∷ []) }
{
    let mut rest = all.into_iter();
    match (rest.next(), rest.next(), rest.next(), rest.next()) {
        (Some(first), Some(second), Some(third), None) => Some((first, second, third)),
        _ => None,
    }
}

fn of_three<S: Drop>(alloc: Global, first: S, second: S, third: S) -> Result<Vec<S>, Memory>
    ensures { IfOk result (λ all. all.items ≡ first ∷ second ∷ third ∷ []) }
{
    let mut all = Vec::new(alloc);
    all.push(first)?;
    all.push(second)?;
    all.push(third)?;
    Ok(all)
}

fn two_threads<R: Threads + Wait + Sync>(
    rt: &R,
    turnstile: &Turnstile<Tally>,
    second: TurnSeat<Tally>,
    third: TurnSeat<Tally>,
) -> (TurnSeat<Tally>, TurnSeat<Tally>)
    requires own { (second.table ≡ turnstile.now) × (third.table ≡ turnstile.now) }
    requires turns { (second.turns ≡ 0) × (third.turns ≡ 0) }
    ensures who { (who result.0 ≡ who second) × (who result.1 ≡ who third) }
{
    join(
        rt,
        || make_calls(rt, turnstile, second),
        || make_calls(rt, turnstile, third),
    )
}

/// The first seat makes no call, the others 1,000 each.
fn tally_of_two<R: Threads + Wait + Sync>(rt: &R, alloc: Global) -> Result<Tally, Memory> {
    let tally = Tally {
        calls: Vec::new(alloc),
    };
    let (turnstile, seats) = Turnstile::new(alloc, tally, 3)?;
    let Some((first, second, third)) = three(seats) else {
        return Err(Memory);
    };
    let (second, third) = two_threads(rt, &turnstile, second, third);
    let seats = of_three(alloc, first, second, third)?;
    Ok(turnstile.close(seats))
}

/// How many calls the seat made, if they are in their order.
fn calls_of(calls: &[Made], seat: u16) -> Option<u32> {
    let mut count = 0u32;
    for made in calls {
        if made.seat == seat {
            if made.call != count {
                return None;
            }
            count = count.saturating_add(1);
        }
    }
    Some(count)
}

#[test]
fn a_book_has_the_calls_of_each_thread_in_its_order(rt: HostRuntime) {
    let tally = tally_of_two(&rt, rt.alloc()).expect(&rt, "memory");
    assert!(rt; tally.calls.len() == 2000);
    assert!(rt; calls_of(&tally.calls, 1) == Some(1000));
    assert!(rt; calls_of(&tally.calls, 2) == Some(1000));
}
