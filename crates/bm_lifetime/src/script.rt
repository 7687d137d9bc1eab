//! How long a connection may live so that no change of a script breaks it.
ghost use Rattle.std.specs.Prelude.{◌≡◌, false, None, IfOk, map};
ghost use Rattle.bm_table.specs.Scripts.{IsSoundScript};
ghost use Rattle.bm_table.specs.Settings.{IsSetting};
ghost use Rattle.bm_lifetime.specs.Inside.Seen.{explain_seen};
ghost use Rattle.bm_lifetime.specs.Lifetime as spec;

use crate::explained::Lifetime;
use crate::seen::{Seen, least_bound, near_moves, next_bound, note_plan, unseen};
use bm_base::Memory;
use bm_table::{FaultRow, RouteKind, Script, Setting};
use std::alloc::Global;

/// A replay has at most this many events.
const MOST_EVENTS: u64 = 12_259_840;

/// How long a connection may live so that no change of the script breaks it, whatever the traffic,
/// with what bounds that; None if it may live on. `Memory` where memory was refused.
pub fn lifetime(alloc: Global, script: &Script) -> Result<Option<Lifetime>, Memory>
    requires { IsSoundScript script.now }
    ensures { IfOk result (λ l. l ≡ spec.explained script.now) }
{
    let slack = slack(&script.setting);
    if !is_steady(script) {
        return Ok(Some(no_time(slack)));
    }
    let most = script.setting.timeout.saturating_sub(slack);
    let lag = greatest(script.setting.lags.items());
    let mut seen = vec![in alloc; unseen(); script.setting.buckets as usize]?;
    note_plan(seen.as_mut_slice(), &script.plan, lag);
    Ok(explain(seen.as_slice(), most, slack))
}

/// The lifetime of a script that isn't steady.
fn no_time(slack: u64) -> Lifetime
    ensures { result ≡ record {
      time = 0;
      by_timeout = false;
      by_moves = None;
      next = None;
      slack = slack;
    } }
{
    Lifetime {
        time: 0,
        by_timeout: false,
        by_moves: None,
        next: None,
        slack,
    }
}

/// The lifetime by what was seen of each bucket, where the timeout leaves this time at most.
fn explain(seen: &[Seen], most: u64, slack: u64) -> Option<Lifetime>
    ensures { result ≡ explain_seen seen.now most slack }
{
    let time = least_bound(seen, most)?;
    Some(Lifetime {
        time,
        by_timeout: time == most,
        by_moves: near_moves(seen, time),
        next: next_bound(seen, most, time),
        slack,
    })
}

/// By how much a timeout must exceed a lifetime.
fn slack(setting: &Setting) -> u64
    requires { IsSetting setting.now }
    ensures { result ≡ spec.slack setting.now }
{
    let delay = longest_delay(setting.faults.items());
    MOST_EVENTS + 3 * delay + greatest(setting.lags.items())
}

/// Whether no packet gets an older table than an earlier one of its connection.
fn is_steady(script: &Script) -> bool
    ensures { result ≡ spec.is_steady script.now }
{
    if script.setting.route == RouteKind::Port {
        return true;
    }
    let lags = script.setting.lags.items();
    if are_all(greatest(lags), lags) {
        return true;
    }
    script.plan.versions() == 0
}

/// The greatest of these numbers, or 0.
fn greatest(numbers: &[u64]) -> u64
    ensures { result ≡ spec.greatest numbers.now }
{
    let mut most = 0;
    for n in numbers {
        most = most.max(*n);
    }
    most
}

/// Whether each of these numbers is n.
fn are_all(n: u64, numbers: &[u64]) -> bool
    ensures { result ≡ spec.are_all n numbers.now }
{
    for x in numbers {
        if *x != n {
            return false;
        }
    }
    true
}

/// The longest delay of these impairments, or 0.
fn longest_delay(rows: &[FaultRow]) -> u64
    ensures { result ≡ spec.greatest (map (λ row. row.fate.delay) rows.now) }
{
    let mut most = 0;
    for row in rows {
        most = most.max(row.fate.delay);
    }
    most
}
