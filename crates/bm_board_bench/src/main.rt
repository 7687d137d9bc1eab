//! Looks at a board while changes are posted, or steers batches of packets, so that `bench/board`
//! can time it. What it writes is the same on every schedule.
//!
//! usage: bm_board_bench looks READERS LOOKS BUCKETS, where each reader looks LOOKS times while
//! 4,096 changes are posted, or bm_board_bench batches BATCHES OCTETS, where a mux steers BATCHES
//! batches of 256 packets of OCTETS octets each.
#![tactic(auto)]

mod batches;
mod looks;
mod plan;

use crate::batches::steer_batches;
use crate::looks::look_beside_posts;
use std::env;
use std::process::ExitCode;

/// What the words ask for.
#[derive(Clone, Copy)]
enum Ask {
    Looks {
        readers: u16,
        looks: u32,
        buckets: u32,
    },
    Batches {
        batches: u32,
        octets: u16,
    },
}

/// What the words ask for, if they fit a form.
fn read_words(rt: &HostRuntime) -> Option<Ask> {
    let mut words = env::args(rt).ok()?.skip(1);
    let form = words.next()?;
    match form.as_str() {
        "looks" => Some(Ask::Looks {
            readers: words.next()?.parse().ok()?,
            looks: words.next()?.parse().ok()?,
            buckets: words.next()?.parse().ok()?,
        }),
        "batches" => Some(Ask::Batches {
            batches: words.next()?.parse().ok()?,
            octets: words.next()?.parse().ok()?,
        }),
        _ => None,
    }
}

fn main(rt: HostRuntime) -> ExitCode {
    let done = match read_words(&rt) {
        Some(
            Ask::Looks {
                readers,
                looks,
                buckets,
            },
        ) if readers > 0 && buckets > 0 && buckets <= 65_536 => {
            match look_beside_posts(&rt, rt.alloc(), readers, looks, buckets) {
                Ok(seen) => println!(rt; "{readers} readers, {seen} looks, 4096 posts"),
                Err(_) => return ExitCode::from(6),
            }
        }
        Some(Ask::Batches { batches, octets }) if octets <= 1_500 => {
            match steer_batches(&rt, rt.alloc(), batches, octets) {
                Ok(sent) => println!(rt; "{batches} batches, {sent} packets"),
                Err(_) => return ExitCode::from(6),
            }
        }
        _ => return ExitCode::from(1),
    };
    match done {
        Ok(()) => ExitCode::SUCCESS,
        Err(_) => ExitCode::from(6),
    }
}
