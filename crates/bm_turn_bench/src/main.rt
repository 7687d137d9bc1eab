//! Makes turns at turnstiles from several threads, so that `bench/turnstile` can time them. What it
//! writes is the same on every schedule.
//!
//! usage: bm_turn_bench THREADS TURNSTILES TURNS, where each thread makes TURNS turns, at each
//! turnstile in turn.
#![tactic(auto)]

mod chair;
mod tally;
mod worker;

use crate::worker::make_turns;
use std::env;
use std::process::ExitCode;

/// The three words, if they are numbers.
fn read_words(rt: &HostRuntime) -> Option<(u16, u16, u32)> {
    let mut words = env::args(rt).ok()?.skip(1);
    let threads = words.next()?.parse().ok()?;
    let turnstiles = words.next()?.parse().ok()?;
    let turns = words.next()?.parse().ok()?;
    Some((threads, turnstiles, turns))
}

fn main(rt: HostRuntime) -> ExitCode {
    let Some((threads, turnstiles, turns)) = read_words(&rt) else {
        return ExitCode::from(1);
    };
    if threads == 0 || turnstiles == 0 {
        return ExitCode::from(1);
    }
    let Ok(made) = make_turns(&rt, rt.alloc(), threads, turnstiles, turns) else {
        return ExitCode::from(6);
    };
    match println!(rt; "{threads} threads, {turnstiles} turnstiles, {made} turns") {
        Ok(()) => ExitCode::SUCCESS,
        Err(_) => ExitCode::from(6),
    }
}
