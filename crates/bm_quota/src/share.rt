//! How many buckets each active server is to own.
ghost use Rattle.std.specs.Prelude.{◌≡◌, ◌≤◌, ◌<◌, ◌*◌, ◌/◌, ◌%◌, ◌-◌, ◌+◌, ◌^◌, length, map, sum, sum_by};
ghost use Rattle.std.specs.Prelude.{All, IfOk, if◌then◌else◌};
ghost use Rattle.std.specs.List.{zip};
ghost use Rattle.bm_quota.specs.Rebalancing.{quota_of, quotas_of};
ghost use Rattle.bm_quota.specs.Inside.Claims.{is_met_before, part_of, StandsAt};
ghost use Rattle.bm_base.specs.declared.ids.ServerId.{ServerId};
ghost use Rattle.bm_table.specs.Settings.{IsWithin, RiseFrom};

use bm_base::{Memory, ServerId};
use std::alloc::Global;

/// How much a server's remainder is short of a whole bucket, and the server. A bucket has as many
/// parts as the weights sum to. The least claim is met first.
#[derive(Clone, Copy, PartialEq, Eq, PartialOrd, Ord)]
struct Claim {
    lacks: u64,
    server: ServerId,
}

/// A server's whole buckets, and its claim to one more.
#[derive(Clone, Copy)]
struct Part {
    share: u64,
    claim: Claim,
}

/// How many buckets each server is to own, by its weight. A server gets the whole buckets of its
/// share. Those that are left go to the servers with the largest remainders, one each; at equal
/// remainders the lower number comes first. The quotas sum to `buckets`. A weight is 1 to 1,000.
/// `Memory` where memory was refused.
pub fn quotas(
    alloc: Global,
    buckets: u32,
    active: &[ServerId],
    weights: &[u32],
) -> Result<Vec<u32>, Memory>
    requires some { 0 < length active.now }
    requires rising { RiseFrom 0 active.now }
    requires count { length weights.now ≡ length active.now }
    requires range { All (IsWithin 1 1000) weights.now }
    ensures parts { IfOk result (λ quotas. quotas.items
        ≡ quotas_of buckets (quota_of active.now weights.now) active.now) }
    ensures total { IfOk result (λ quotas. sum quotas.items ≡ buckets) }
{
    let total = total_weight(active, weights);
    let made = parts(alloc, buckets, total, active, weights)?;
    let parts = made.as_slice();
    let rest = left_over(buckets, parts);
    let next = claim_at(alloc, parts, rest as usize)?;
    with_one_more(alloc, parts, next)
}

/// The sum of the weights. There are at most 65,536, so it is exact.
fn total_weight(active: &[ServerId], weights: &[u32]) -> u64
    requires rising { RiseFrom 0 active.now }
    requires count { length weights.now ≡ length active.now }
    requires range { All (IsWithin 1 1000) weights.now }
    ensures { result ≡ sum weights.now }
{
    let mut total: u64 = 0;
    for (i, server) in active.iter().enumerate() {
        let number = server.0;
        prove!(number <= 65_535);
        total += u64::from(weights[i]);
    }
    total
}

fn parts(
    alloc: Global,
    buckets: u32,
    total: u64,
    active: &[ServerId],
    weights: &[u32],
) -> Result<Vec<Part>, Memory>
    requires some { 0 < total }
    requires count { length weights.now ≡ length active.now }
    ensures { IfOk result (λ parts. parts.items
        ≡ map (λ p. part_of buckets total p.0 p.1) (zip active.now weights.now)) }
{
    let parts = active
        .iter()
        .zip(weights)
        .map(
            |(server, weight)|
                requires { 0 < total }
            { due_to(buckets, total, *server, *weight) },
        )
        .collect(alloc)?;
    Ok(parts)
}

fn due_to(buckets: u32, total: u64, server: ServerId, weight: u32) -> Part
    requires { 0 < total }
    ensures { result ≡ part_of buckets total server weight }
{
    let due = u64::from(buckets) * u64::from(weight);
    Part {
        share: due / total,
        claim: Claim {
            lacks: total - due % total,
            server,
        },
    }
}

/// How many buckets the shares leave.
fn left_over(buckets: u32, parts: &[Part]) -> u64
    requires { sum_by (λ p. p.share) parts.now ≤ buckets }
    ensures { result ≡ buckets - sum_by (λ p. p.share) parts.now }
{
    let mut rest = u64::from(buckets);
    for part in parts {
        rest -= part.share;
    }
    rest
}

/// The claim that has this many others before it.
fn claim_at(alloc: Global, parts: &[Part], place: usize) -> Result<Claim, Memory>
    requires { place < length parts.now }
    ensures { IfOk result (λ claim. StandsAt (map (λ p. p.claim) parts.now) place claim) }
{
    let mut claims = claims_of(alloc, parts)?;
    let (_, claim, _) = claims.as_mut_slice().select_nth_unstable(place);
    Ok(*claim)
}

fn claims_of(alloc: Global, parts: &[Part]) -> Result<Vec<Claim>, Memory>
    ensures { IfOk result (λ claims. claims.items ≡ map (λ p. p.claim) parts.now) }
{
    let claims = parts.iter().map(|part| part.claim).collect(alloc)?;
    Ok(claims)
}

/// Each share, and one more where the claim comes before this one.
fn with_one_more(alloc: Global, parts: &[Part], next: Claim) -> Result<Vec<u32>, Memory>
    requires { All (λ p. p.share + (if is_met_before p.claim next then 1 else 0) < 2 ^ 32) parts.now }
    ensures { IfOk result (λ quotas. quotas.items
        ≡ map (λ p. p.share + (if is_met_before p.claim next then 1 else 0)) parts.now) }
{
    let mut quotas = Vec::with_capacity(alloc, parts.len())?;
    for part in parts {
        let more = if part.claim < next { 1 } else { 0 };
        quotas.push((part.share + more) as u32)?;
    }
    Ok(quotas)
}
