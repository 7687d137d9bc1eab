//! Which of the calls that can come is first.
ghost use Rattle.std.specs.Prelude.{◌≡◌};
ghost use Rattle.bm_core.specs.Schedule.{comes_first};
ghost use Rattle.bm_replay.specs.Inside.Comings.{is_before, is_no_later, first_coming, soonest_of};
ghost use Rattle.bm_replay.specs.Inside.Comings.{sooner_of};

use bm_base::Moment;
use bm_core::Due;

/// What comes next: a copy that is due at this moment arrives, a call is carried out, or nothing
/// is left.
#[derive(Clone, Copy, PartialEq, Eq)]
pub(crate) enum Coming {
    Arrive(Moment),
    Call(Due),
    Over,
}

/// The sooner of the two; if they are equal, the first.
pub(crate) fn sooner(a: Option<Due>, b: Option<Due>) -> Option<Due>
    ensures { result ≡ sooner_of a b }
{
    match (a, b) {
        (None, b) => b,
        (a, None) => a,
        (Some(x), Some(y)) => Some(if comes_first(&y, &x) { y } else { x }),
    }
}

/// Whether `a` comes before `b`: by moment, then by rank, then by number.
fn comes_first(a: &Due, b: &Due) -> bool
    ensures { result ≡ comes_first a.now b.now }
{
    let (a_rank, b_rank) = (a.call.rank(), b.call.rank());
    a.moment < b.moment
        || a.moment == b.moment && (a_rank < b_rank || a_rank == b_rank && a.number < b.number)
}

/// The moment of the first copy under way or of the next packet, whichever is sooner.
pub(crate) fn soonest(copy: Option<Moment>, packet: Option<Due>) -> Option<Moment>
    ensures { result ≡ soonest_of copy packet }
{
    match (copy, packet) {
        (None, None) => None,
        (Some(moment), None) => Some(moment),
        (None, Some(due)) => Some(Moment(due.moment)),
        (Some(moment), Some(due)) => {
            Some(if moment.0 <= due.moment {
                moment
            } else {
                Moment(due.moment)
            })
        }
    }
}

/// The first of the soonest command, the first copy under way and the next packet: a copy arrives
/// after the commands of its moment, and before the packets.
#[inline(always)]
pub(crate) fn first_coming(
    command: Option<Due>,
    copy: Option<Moment>,
    packet: Option<Due>,
) -> Coming
    ensures { result ≡ first_coming command copy packet }
{
    match copy {
        Some(moment) if is_before(moment, command) && is_no_later(moment, packet) => {
            Coming::Arrive(moment)
        }
        _ => match sooner(command, packet) {
            Some(due) => Coming::Call(due),
            None => Coming::Over,
        },
    }
}

/// Whether this is due after the moment, if it is due at all.
pub(crate) fn is_before(moment: Moment, due: Option<Due>) -> bool
    ensures { result ≡ is_before moment.0 due }
{
    match due {
        Some(due) => moment.0 < due.moment,
        None => true,
    }
}

fn is_no_later(moment: Moment, due: Option<Due>) -> bool
    ensures { result ≡ is_no_later moment.0 due }
{
    match due {
        Some(due) => moment.0 <= due.moment,
        None => true,
    }
}
