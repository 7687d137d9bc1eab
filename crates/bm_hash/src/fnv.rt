//! FNV-1a (Fowler, Noll, Vo), over the addresses, the ports and the protocol of a flow.
ghost use Rattle.std.specs.Prelude.{◌≡◌, ◌≤◌, ◌%◌, fold};
ghost use Rattle.bm_hash.specs.Buckets as fnv;

use bm_base::Flow;

const OFFSET_BASIS: u64 = 0xcbf2_9ce4_8422_2325;

const PRIME: u64 = 0x100_0000_01b3;

/// The 13 octets that are hashed: source address, destination address, source port, destination
/// port, each big endian, then the protocol, 6.
pub fn flow_octets(f: &Flow) -> [u8; 13]
    ensures { result ≡ fnv.flow_octets f.now }
{
    let [s0, s1, s2, s3] = f.src.to_be_bytes();
    let [d0, d1, d2, d3] = f.dst.to_be_bytes();
    let [p0, p1] = f.sport.to_be_bytes();
    let [q0, q1] = f.dport.to_be_bytes();
    [s0, s1, s2, s3, d0, d1, d2, d3, p0, p1, q0, q1, 6]
}

/// FNV-1a with 64 bits.
#[tactic(auto, unfolding(crate::specs::Buckets::fnv_1a))]
pub fn fnv_1a(octets: &[u8]) -> u64
    ensures { result ≡ fnv.fnv_1a octets.now }
{
    hash_on(OFFSET_BASIS, octets)
}

/// FNV-1a with 64 bits, continued: the number of some octets and then these, if `h` is the number
/// of the octets before. Takes no memory.
pub fn hash_on(h: u64, octets: &[u8]) -> u64
    ensures { result ≡ fold fnv.fnv_step h octets.now }
{
    let mut hash = h;
    for octet in octets {
        hash = (hash ^ u64::from(*octet)).wrapping_mul(PRIME);
    }
    hash
}

/// FNV-1a with 64 bits over the octets of the flow.
#[tactic(auto, unfolding(crate::specs::Buckets::flow_hash))]
pub fn flow_hash(f: &Flow) -> u64
    ensures { result ≡ fnv.flow_hash f.now }
{
    fnv_1a(&flow_octets(f))
}

/// The remainder of a hash. If the divisor is a power of two, a mask gives it in a tenth of the
/// time of a division.
pub fn remainder(hash: u64, divisor: u64) -> u64
    requires { 1 ≤ divisor }
    ensures { result ≡ hash % divisor }
{
    let bits = divisor.trailing_zeros();
    if divisor == 1 << bits {
        hash & (divisor - 1)
    } else {
        hash % divisor
    }
}

/// The bucket of a flow, below `buckets`.
pub fn bucket_of(f: &Flow, buckets: u32) -> u32
    requires some { 1 ≤ buckets }
    requires few { buckets ≤ 65536 }
    ensures { result ≡ fnv.bucket_of buckets f.now }
{
    remainder(flow_hash(f), u64::from(buckets)) as u32
}

/// The shard of a flow at its server, below `shards`.
pub fn shard_of(f: &Flow, shards: u16) -> u16
    requires some { 1 ≤ shards }
    requires few { shards ≤ 64 }
    ensures { result ≡ fnv.shard_of shards f.now }
{
    // One shard has every flow, whatever the hash.
    if shards == 1 {
        return 0;
    }
    remainder(flow_hash(f) >> 32, u64::from(shards)) as u16
}
