//! The stream of a connection.
ghost use Rattle.std.specs.Prelude.{◌≡◌, ◌+◌, ◌-◌, ◌^◌, ◌<◌, ◌≤◌, ℕ, ℤ, pos, negsuc, ◌<ℤ◌};
ghost use Rattle.std.specs.Prelude.{IfOk, Option, None, Some, List, [], ◌∷◌, length, ◌==◌};
ghost use Rattle.std.specs.Prelude.{if◌then◌else◌, drop};
ghost use Rattle.bm_stream.specs.Pieces.{first_of_two, fin_at, octet_at, is_fin};
ghost use Rattle.bm_stream.specs.Inside.Places.{first_from, places_before};
ghost use Rattle.bm_stream.specs.Inside.Positions.{AreBelow};
ghost use Rattle.bm_stream.specs.Rings.{held_at};

use crate::ring::Ring;
use bm_base::Memory;
use bm_hash::{fnv_1a, hash_on};
use std::alloc::Global;

/// How many places may be kept, counted from the length.
const WINDOW: u64 = 65_535;

/// The greatest position at which a stream may begin.
const LAST_BASE: u64 = 1 << 62;

/// What a connection received, put in order: how many octets, their FNV-1a number, and what came
/// ahead of them. Places are counted from the first octet of the stream; the octet of a place is in
/// the ring at the position that is the base plus the place.
#[derive(Drop)]
pub struct Stream {
    ring: Ring,
    base: u64,
    length: u64,
    fin: Option<u64>,
    hash: u64,
    ghost based: { base ≤ 2 ^ 62 },
    ghost near: { length ≤ 2 ^ 62 + 65535 },
    ghost inside: { AreBelow (base + length + 65535) ring.cells.items },
    ghost bounded: { AreBelow (base + 2 ^ 62 + 65535) ring.cells.items },
}

impl Stream {
    ghost use Rattle.bm_stream.specs.Pieces.{Piece, kept, stream, is_ended};
    ghost use Rattle.bm_stream.specs.Views.{HasTaken};
    ghost use Rattle.bm_stream.specs.Inside.Keeping.{IsKeeping, IsAtEnd};
    ghost use Rattle.bm_hash.specs.Buckets as fnv;

    /// A stream that has taken no piece. `Memory` where memory was refused.
    pub fn open(alloc: Global) -> Result<Stream, Memory>
        ensures { IfOk result (HasTaken []) }
    {
        Ok(Stream {
            ring: Ring::new(alloc)?,
            base: 1,
            length: 0,
            fin: None,
            hash: fnv_1a(&[]),
        })
    }

    /// Makes it a stream that has taken no piece. Takes no memory, and constant time but for one call
    /// in 2^62 octets.
    pub fn clear(&mut self)
        ensures { HasTaken [] self.new }
    {
        self.base = base_after(&mut self.ring, self.base + self.length + WINDOW);
        self.length = 0;
        self.fin = None;
        self.hash = fnv_1a(&[]);
    }

    /// Takes a piece: the octets from a place on, at most 65,535, and the place of a FIN, if there is
    /// one. Takes no memory.
    pub fn take(&mut self, place: i64, octets: &[u8], fin: Option<i64>)
        requires low { negsuc (2 ^ 62 - 1) <ℤ place }
        requires high { place <ℤ pos (2 ^ 62) }
        requires few { length octets.now ≤ 65535 }
        ensures { (pieces : List Piece) → HasTaken pieces self.old
            → HasTaken (record { place = place; octets = octets.now; fin = fin } ∷ pieces)
            self.new }
    {
        let first = first_place(place, self.length);
        let rest = rest_from(place, octets, self.length);
        let end = self.base + self.length + WINDOW;
        keep(&mut self.ring, self.base + first, end, rest);
        self.fin = kept_fin(self.fin, self.length, fin);
        self.advance();
    }

    /// The length grows as far as octets are kept, or up to the FIN.
    fn advance(&mut self)
        ensures base { self.new.base ≡ self.old.base }
        ensures fin { self.new.fin ≡ self.old.fin }
        ensures keeping { (octet : ℕ → Option ℕ) (end : ℕ) → IsKeeping octet end self.old
            → IsKeeping octet end self.new }
        ensures end { (octet : ℕ → Option ℕ) (end : ℕ) → IsKeeping octet end self.old
            → IsAtEnd octet self.new }
    {
        while !self.is_at_fin() {
            let Some(octet) = self.ring.get(self.base + self.length) else {
                return;
            };
            self.hash = hash_on(self.hash, &[octet]);
            self.length += 1;
        }
    }

    /// Whether the length is the place of the FIN.
    fn is_at_fin(&self) -> bool
        ensures { result ≡ is_fin self.now.fin self.now.length }
    {
        match self.fin {
            None => false,
            Some(fin) => fin == self.length,
        }
    }

    /// How many octets the stream has.
    pub fn length(&self) -> u64
        ensures { (pieces : List Piece) → HasTaken pieces self.now
            → result ≡ length (stream pieces) }
    {
        self.length
    }

    /// The FNV-1a number of its octets.
    pub fn hash(&self) -> u64
        ensures { (pieces : List Piece) → HasTaken pieces self.now
            → result ≡ fnv.fnv_1a (stream pieces) }
    {
        self.hash
    }

    /// Whether it reaches the FIN.
    #[tactic(auto, unfolding(crate::specs::Pieces::is_ended))]
    pub fn ended(&self) -> bool
        ensures { (pieces : List Piece) → HasTaken pieces self.now → result ≡ is_ended pieces }
    {
        self.is_at_fin()
    }
}

/// A base for a ring whose octets are below this position: the position, or 1 in a ring that is
/// emptied because it was too large.
fn base_after(ring: &mut Ring, end: u64) -> u64
    requires { AreBelow end ring.old.cells.items }
    ensures based { result ≤ 2 ^ 62 }
    ensures below { AreBelow result ring.new.cells.items }
{
    if end <= LAST_BASE {
        end
    } else {
        ring.clear();
        1
    }
}

/// The first place from `place` on that isn't below the length.
fn first_place(place: i64, upto: u64) -> u64
    requires { upto < 2 ^ 63 }
    ensures { result ≡ first_from place upto }
{
    if place < 0 {
        upto
    } else {
        upto.max(place as u64)
    }
}

/// How many places there are from `place` up to the length.
fn places_before(place: i64, upto: u64) -> u64
    requires { upto < 2 ^ 63 }
    ensures { result ≡ places_before place upto }
{
    if place < 0 {
        upto + place.unsigned_abs()
    } else {
        upto.saturating_sub(place as u64)
    }
}

/// Of octets from `place` on, those that aren't below the length.
fn rest_from(place: i64, octets: &[u8], upto: u64) -> &[u8]
    requires { upto < 2 ^ 63 }
    ensures { result.now ≡ drop (places_before place upto) octets.now }
{
    let gone = places_before(place, upto);
    if gone < octets.len() as u64 {
        &octets[gone as usize..]
    } else {
        &[]
    }
}

/// Keeps an octet at a position below the end, unless there is one.
fn keep_octet(ring: &mut Ring, position: u64, end: u64, octet: u8)
    ensures octets { (p : ℕ) → p < end → end ≤ p + 65535 → end ≤ position + 65535
        → held_at ring.new.cells.items p
        ≡ first_of_two (held_at ring.old.cells.items p)
        (if position == p then Some octet else None) }
    ensures below { (limit : ℕ) → end ≤ limit → AreBelow limit ring.old.cells.items
        → AreBelow limit ring.new.cells.items }
    ensures bounded { (limit : ℕ) → position < limit → AreBelow limit ring.old.cells.items
        → AreBelow limit ring.new.cells.items }
{
    if position < end && ring.get(position).is_none() {
        ring.put(position, octet);
    }
}

/// Keeps the octets from a position on that are below the end and at positions without an octet.
fn keep(ring: &mut Ring, first: u64, end: u64, octets: &[u8])
    requires first { first ≤ 2 ^ 63 + 2 ^ 62 }
    requires end { end ≤ first + 65535 }
    requires few { length octets.now ≤ 65535 }
    ensures octets { (p : ℕ) → p < end → end ≤ p + 65535
        → held_at ring.new.cells.items p
        ≡ first_of_two (held_at ring.old.cells.items p) (octet_at (pos first) octets.now p) }
    ensures below { AreBelow end ring.old.cells.items → AreBelow end ring.new.cells.items }
    ensures bounded { (limit : ℕ) → first + length octets.now ≤ limit → AreBelow limit ring.old.cells.items
        → AreBelow limit ring.new.cells.items }
{
    for (i, octet) in octets.iter().enumerate() {
        keep_octet(ring, first + i as u64, end, *octet);
    }
}

/// The place of the FIN, if it is in the window.
fn fin_in_window(upto: u64, fin: Option<i64>) -> Option<u64>
    requires { upto < 2 ^ 63 }
    ensures { result ≡ fin_at upto fin }
{
    let place = u64::try_from(fin?).ok()?;
    if upto <= place && place < upto + WINDOW {
        Some(place)
    } else {
        None
    }
}

/// The place of the FIN that was kept, else of this one, if it is in the window.
fn kept_fin(kept: Option<u64>, upto: u64, fin: Option<i64>) -> Option<u64>
    requires { upto < 2 ^ 63 }
    ensures { result ≡ first_of_two kept (fin_at upto fin) }
{
    match kept {
        Some(place) => Some(place),
        None => fin_in_window(upto, fin),
    }
}
