//! The packets that came too late, and the least timeout under which none of them would have.
ghost use Rattle.std.specs.Prelude.{◌≡◌, Some, if◌then◌else◌};
ghost use Rattle.bm_core.specs.Causes as causes;
ghost use Rattle.bm_trace.specs.Totals.{arrives};
ghost use Rattle.bm_connections.specs.Late as spec;

use crate::counts::is_cause;
use crate::needs::NeedOf;
use bm_core::{Cause, Verdict, What};

/// Of the packets that came too late: the longest time, in nanoseconds, since a packet's bucket
/// left the server to which the packet may be passed on, and the least timeout in whole seconds
/// under which none of them, at its clock, would have come too late.
#[derive(Clone, Copy, PartialEq, Eq)]
pub struct LongestLate {
    pub wait: u64,
    pub timeout_s: u64,
}

/// Rounds up to whole seconds.
fn whole_seconds(nanoseconds: u64) -> u64
    ensures { result ≡ spec.whole_seconds nanoseconds }
{
    let seconds = nanoseconds / 1_000_000_000;
    if nanoseconds % 1_000_000_000 == 0 {
        seconds
    } else {
        seconds + 1
    }
}

/// The longest wait, if there is one, with its timeout.
pub(crate) fn as_late(wait: Option<u64>) -> Option<LongestLate>
    ensures { result ≡ spec.as_late wait }
{
    let wait = wait?;
    Some(LongestLate {
        wait,
        timeout_s: whole_seconds(wait),
    })
}

fn longer(longest: Option<u64>, wait: u64) -> u64
    ensures { result ≡ spec.longer longest wait }
{
    match longest {
        None => wait,
        Some(longest) => longest.max(wait),
    }
}

/// The longest wait after one with this wait, which came too late or not.
pub(crate) fn longest_after(longest: Option<u64>, late: bool, wait: u64) -> Option<u64>
    ensures { result ≡ (if late then Some (spec.longer longest wait) else longest) }
{
    if late {
        Some(longer(longest, wait))
    } else {
        longest
    }
}

fn is_refusal(verdict: Verdict) -> bool
    ensures { result ≡ causes.is_refusal verdict }
{
    matches!(verdict, Verdict::Reset(_) | Verdict::Drop(_))
}

/// Whether a packet is dropped or reset.
pub(crate) fn is_refused(what: What) -> bool
    ensures { result ≡ arrives causes.is_refusal what }
{
    match what {
        What::Arrive { verdict, .. } => is_refusal(verdict),
        _ => false,
    }
}

/// Whether a longer timeout is what a packet with this cause needs, and not this later change.
pub(crate) fn is_of_timeout(cause: Option<Cause>, third: Option<NeedOf>) -> bool
    ensures { result ≡ spec.is_of_timeout cause third }
{
    is_cause(Cause::ChainLate, cause) || is_cause(Cause::MovedThrice, cause) && third.is_none()
}
