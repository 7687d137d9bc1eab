//! Readers that look while a poster posts.
ghost use Rattle.std.specs.Prelude.{◌≡◌, ◌<◌, ◌≤◌, []};

use crate::plan::moving_plan;
use bm_base::{Entry, Memory, Moment, Version};
use bm_publish::{Look, Poster, board};
use bm_table::Plan;
use std::alloc::Global;
use std::sync::Wait;
use std::thread::{Threads, for_each_mut, join};

/// A look, and how many of its looks showed no older version than the one before.
#[derive(Drop)]
struct Reader {
    look: Option<Look>,
    seen: u32,
}

/// The moment of the bucket's last move, or 0 if it hasn't moved yet.
fn moved_at(entry: Entry) -> u64 {
    match entry.prev {
        Some(past) => past.stamp.0,
        None => 0,
    }
}

impl Reader {
    /// Looks this many times, and reads the entry of bucket 0 each time.
    fn watch(&mut self, looks: u32) {
        let mut last = Version(0);
        for _ in 0..looks {
            let Some(look) = self.look.take() else {
                return;
            };
            match look.look() {
                Ok(guard) => {
                    let version = guard.version();
                    if version >= last && moved_at(guard.entry(0)) <= 4_096 {
                        self.seen = self.seen.saturating_add(1);
                    }
                    last = version;
                    self.look = Some(guard.leave());
                }
                Err((look, _why)) => self.look = Some(look),
            }
        }
    }
}

fn post_all<R: Wait>(rt: &R, plan: &Plan, poster: &mut Poster) -> Result<(), Memory>
    requires { (poster.old.plan ≡ plan.now) × (poster.old.clocks ≡ []) }
{
    for version in 0..plan.versions() {
        let change = plan.copy_change(Version(version + 1))?;
        poster.post(rt, change, Moment(u64::from(version) + 1))?;
    }
    Ok(())
}

fn make_readers(alloc: Global, looks: Vec<Look>) -> Result<Vec<Reader>, Memory> {
    let mut readers = Vec::with_capacity(alloc, looks.len())?;
    for look in looks {
        readers.push(Reader {
            look: Some(look),
            seen: 0,
        })?;
    }
    Ok(readers)
}

/// How many looks of all readers were right.
fn total(readers: &[Reader]) -> u64 {
    let mut seen = 0u64;
    for reader in readers {
        seen = seen.saturating_add(u64::from(reader.seen));
    }
    seen
}

/// Each reader looks this many times, in a thread of its own.
fn watch_all<R: Threads + Sync>(rt: &R, readers: &mut [Reader], looks: u32) {
    let threads = readers.len().max(1);
    for_each_mut(rt, readers, threads, &|_, reader| reader.watch(looks));
}

/// How many looks were right, if each of these readers looks this many times during the posts.
pub fn look_beside_posts<R: Threads + Wait + Sync>(
    rt: &R,
    alloc: Global,
    readers: u16,
    looks: u32,
    buckets: u32,
) -> Result<u64, Memory>
    requires readers { 1 ≤ readers }
    requires buckets { (1 ≤ buckets) × (buckets ≤ 65536) }
{
    let plan = moving_plan(alloc, buckets)?;
    let (mut poster, ends) = board(rt, alloc, &plan, readers)?;
    let posted = match make_readers(alloc, ends) {
        Ok(mut all) => {
            let (posted, ()) = join(
                rt,
                || post_all(rt, &plan, &mut poster),
                || watch_all(rt, &mut all, looks),
            );
            posted.map(|()| total(&all))
        }
        Err(why) => Err(why),
    };
    poster.end(rt);
    posted
}
