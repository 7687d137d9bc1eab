//! The packets of a capture.
ghost use Rattle.std.specs.Prelude.{◌≡◌, ◌<◌, ◌≤◌, ◌-◌, [], ◌∷◌, ◌++◌, drop, length, map};
ghost use Rattle.std.specs.Prelude.{slice_index_or, OnOk, OnErr};
ghost use Rattle.bm_base.specs.Pieces.{cleared};
ghost use Rattle.bm_base.specs.Inside.Pieces.{AreEnds, begin_of, pieces};

use crate::Memory;
use std::alloc::Global;
use std::marker::Model;

/// The longest packet that fits in 65,535 octets together with a carrier header.
pub const MAX_INNER: u32 = 65_479;

/// A list of octets for each record of a capture: all octets in one vector, and where each list
/// ends.
#[derive(Drop)]
pub struct Octets {
    octets: Vec<u8>,
    ends: Vec<usize>,
}

impl Model for Octets {
    ghost use Rattle.std.specs.Prelude.{List as Lists, ℕ, ◌^◌, ◌<◌, length};
    ghost use Rattle.bm_base.specs.Inside.Pieces.{AreEnds, pieces};

    ghost Value = { Lists (Lists ℕ) };

    ghost view = { λ a. pieces 0 a.ends.items a.octets.items };

    ghost invariant = { λ a. (length a.ends.items < 2 ^ 32)
        × AreEnds 0 a.ends.items (length a.octets.items) };
}

impl Octets {
    /// No lists. Takes no memory.
    pub fn new(alloc: Global) -> Octets
        ensures { result ≡ [] }
    {
        Octets {
            octets: Vec::new(alloc),
            ends: Vec::new(alloc),
        }
    }

    /// Adds a list at the end. `Memory` where memory was refused; then nothing changes.
    pub fn push(&mut self, octets: &[u8]) -> Result<(), Memory>
        requires { length self.old < 4294967295 }
        ensures ok { OnOk result (self.new ≡ self.old ++ octets.now ∷ []) }
        ensures err { OnErr result (self.new ≡ self.old) }
    {
        let before = self.octets.len();
        self.octets.extend_from_slice(octets)?;
        if self.ends.push(self.octets.len()).is_err() {
            self.octets.truncate(before);
            return Err(Memory);
        }
        Ok(())
    }

    /// The list at this place, counted from 0. Takes no memory.
    pub fn get(&self, place: u32) -> &[u8]
        requires { place < length self.now }
        ensures { result.now ≡ slice_index_or self.now place [] }
    {
        piece(&self.octets, &self.ends, place as usize)
    }

    /// Frees the octets of the first `count` lists, which are then empty. Takes no memory.
    pub fn clear_first(&mut self, count: u32)
        requires { count ≤ length self.old }
        ensures { self.new ≡ cleared count self.old }
    {
        let gone = begin(&self.ends, count as usize);
        remove_first(&mut self.octets, gone);
        lower(&mut self.ends, gone);
    }

    /// How many lists there are.
    pub fn len(&self) -> u32
        ensures { result ≡ length self.now }
    {
        self.ends.len() as u32
    }
}

/// Where the list at this place begins, or would begin after the last one.
fn begin(ends: &[usize], at: usize) -> usize
    requires { at ≤ length ends.now }
    ensures { result ≡ begin_of ends.now at }
{
    if at == 0 { 0 } else { ends[at - 1] }
}

/// Removes the first `count` octets and frees their memory.
fn remove_first(octets: &mut Vec<u8>, count: usize)
    requires { count ≤ length octets.old.items }
    ensures { octets.new.items ≡ drop count octets.old.items }
{
    let left = octets.len() - count;
    octets.as_mut_slice().copy_within(count.., 0);
    octets.truncate(left);
    octets.shrink_to_fit();
}

/// Subtracts this from each number, down to 0.
fn lower(numbers: &mut Vec<usize>, by: usize)
    ensures { numbers.new.items ≡ map (λ n. n - by) numbers.old.items }
{
    for place in 0..numbers.len() {
        numbers[place] = numbers[place].saturating_sub(by);
    }
}

/// The list at this place, among the lists with these ends.
fn piece<'a>(octets: &'a [u8], ends: &[usize], at: usize) -> &'a [u8]
    requires ends { AreEnds 0 ends.now (length octets.now) }
    requires within { at < length ends.now }
    ensures { result.now ≡ slice_index_or (pieces 0 ends.now octets.now) at [] }
{
    let from = begin(ends, at);
    &octets[from..ends[at]]
}
