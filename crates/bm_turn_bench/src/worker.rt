//! The threads.
ghost use Rattle.std.specs.Prelude.{◌<◌};

use crate::chair::{Chair, make_chairs};
use bm_base::Memory;
use bm_rows::add_column;
use std::alloc::Global;
use std::sync::Wait;
use std::thread::{Threads, for_each_mut};

/// A thread's chairs, one at each turnstile, and how many turns were answered.
#[derive(Drop)]
struct Worker {
    chairs: Vec<Chair>,
    answered: u32,
}

impl Worker {
    fn work<R: Wait>(&mut self, rt: &R, turns: u32) {
        let count = self.chairs.len();
        if count == 0 {
            return;
        }
        for turn in 0..turns {
            let at = turn as usize % count;
            if self.chairs[at].turn(rt, turn) {
                self.answered = self.answered.saturating_add(1);
            }
        }
    }
}

fn make_workers(alloc: Global, threads: u16, turnstiles: u16) -> Result<Vec<Worker>, Memory>
    requires { 0 < threads }
{
    let mut rows = Vec::new(alloc);
    for _ in 0..threads {
        rows.push(Vec::new(alloc))?;
    }
    for _ in 0..turnstiles {
        let chairs = make_chairs(alloc, threads)?;
        add_column(&mut rows, chairs)?;
    }
    let mut workers = Vec::new(alloc);
    for chairs in rows {
        workers.push(Worker {
            chairs,
            answered: 0,
        })?;
    }
    Ok(workers)
}

/// How many turns were answered, if each of these threads makes this many.
pub fn make_turns<R: Threads + Wait + Sync>(
    rt: &R,
    alloc: Global,
    threads: u16,
    turnstiles: u16,
    turns: u32,
) -> Result<u64, Memory>
    requires { 0 < threads }
{
    let mut workers = make_workers(alloc, threads, turnstiles)?;
    for_each_mut(
        rt,
        &mut workers,
        usize::from(threads),
        &|_, worker| { worker.work(rt, turns) },
    );
    let mut answered = 0u64;
    for worker in &workers {
        answered = answered.saturating_add(u64::from(worker.answered));
    }
    Ok(answered)
}
