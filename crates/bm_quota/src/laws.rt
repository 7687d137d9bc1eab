//! The laws of quotas.
ghost use Rattle.std.specs.Prelude.{◌≡◌, ◌<◌, ℕ, true, length, sum, All};
ghost use Rattle.bm_base.specs.declared.ids.ServerId.{ServerId};
ghost use Rattle.bm_quota.specs.Rebalancing.{equal_quotas, quota_of, quotas_of, IsNearShare};
ghost use Rattle.bm_table.specs.Settings.{IsWithin, RiseFrom};
ghost use Rattle.bm_table.specs.Tables.{is_among};

use bm_base::ServerId;

/// The quotas sum to the number of buckets.
pub fn quotas_sum(buckets: u32, active: &[ServerId], weights: &[u32])
    requires some { 0 < length active.now }
    requires rising { RiseFrom 0 active.now }
    requires count { length weights.now ≡ length active.now }
    requires range { All (IsWithin 1 1000) weights.now }
    ensures { sum (quotas_of buckets (quota_of active.now weights.now) active.now) ≡ buckets }
{}

/// No quota is a whole bucket or more off the server's exact share.
pub fn near_share(buckets: u32, active: &[ServerId], weights: &[u32])
    requires some { 0 < length active.now }
    requires rising { RiseFrom 0 active.now }
    requires count { length weights.now ≡ length active.now }
    requires range { All (IsWithin 1 1000) weights.now }
    ensures { (s : ServerId) → IsNearShare buckets (quota_of active.now weights.now) active.now s }
{}

/// If the active servers weigh the same, each quota is the quotient of buckets and servers, and the
/// first servers, as many as the remainder, get one more.
pub fn equal_weights(buckets: u32, weight: u32, active: &[ServerId])
    requires some { 0 < length active.now }
    requires rising { RiseFrom 0 active.now }
    requires weight { 0 < weight }
    ensures { (weights : ServerId → ℕ)
        → ((s : ServerId) → is_among active.now s ≡ true → weights s ≡ weight)
        → quotas_of buckets weights active.now ≡ equal_quotas buckets (length active.now) }
{}
