//! The commands of each kind and the packets, each in their order.
ghost use Rattle.std.specs.Prelude.{◌≡◌, ℕ, ◌<◌, ◌≤◌, length};
ghost use Rattle.bm_replay.specs.Inside.Queues.{IsBehind, IsHead, behind, retire_at, closes_from};
ghost use Rattle.bm_replay.specs.Inside.Queues.{packets_after, retires_after, retires_from};
ghost use Rattle.bm_replay.specs.Inside.Queues.{syncs_from};

use bm_base::{Body, Record, ServerId};
use bm_core::{Call, Due};
use bm_table::Command;

/// What comes next of one kind, and the place after it in the script or the capture.
#[derive(Clone, Copy, PartialEq, Eq)]
pub(crate) struct Queue {
    pub(crate) head: Option<Due>,
    pub(crate) next: usize,
}

/// The first close from this command on.
pub(crate) fn next_close(commands: &[Command], from: usize) -> Queue
    ensures { IsHead (closes_from commands.now from) (closes_from commands.now result.next)
        result.head }
{
    for i in from..commands.len() {
        if let Command::Close { at, server, flow } = commands[i] {
            return Queue {
                head: Some(Due {
                    moment: at.0,
                    number: 0,
                    call: Call::Closes(server, flow),
                }),
                next: i + 1,
            };
        }
    }
    Queue {
        head: None,
        next: commands.len(),
    }
}

/// The first retire from this command on, for shard 0.
pub(crate) fn next_retire(commands: &[Command], from: usize) -> Queue
    ensures { (shards : ℕ) → 0 < shards
        → IsHead (retires_from shards commands.now from) (retires_after shards commands.now result)
        result.head }
{
    for i in from..commands.len() {
        if let Command::Retire { at, server } = commands[i] {
            return Queue {
                head: Some(retire_due(server, 0, at.0)),
                next: i + 1,
            };
        }
    }
    Queue {
        head: None,
        next: commands.len(),
    }
}

/// The retire of the server's next shard, or else of the next command.
pub(crate) fn later_retire(commands: &[Command], shards: u16, queue: &Queue) -> Queue
    requires { 0 < shards }
    ensures { IsHead (retires_after shards commands.now queue.now)
        (retires_after shards commands.now result) result.head }
{
    match later_shard(shards, queue.head) {
        Some(due) => Queue {
            head: Some(due),
            next: queue.next,
        },
        None => next_retire(commands, queue.next),
    }
}

/// The retire of the next shard at the same server.
fn later_shard(shards: u16, due: Option<Due>) -> Option<Due>
    requires { 0 < shards }
    ensures { IsHead (behind shards due) (behind shards result) result }
{
    match due?.call {
        Call::Retires(server, shard, at) if shard < shards - 1 => {
            Some(retire_due(server, shard + 1, at))
        }
        _ => None,
    }
}

fn retire_due(server: ServerId, shard: u16, at: u64) -> Due
    ensures { result ≡ retire_at server at shard }
{
    Due {
        moment: at,
        number: usize::from(shard),
        call: Call::Retires(server, shard, at),
    }
}

/// The first sync from this command on.
pub(crate) fn next_sync(commands: &[Command], from: usize) -> Queue
    ensures { IsHead (syncs_from commands.now from) (syncs_from commands.now result.next)
        result.head }
{
    for i in from..commands.len() {
        if let Command::Sync { at } = commands[i] {
            return Queue {
                head: Some(Due {
                    moment: at.0,
                    number: 0,
                    call: Call::Syncs,
                }),
                next: i + 1,
            };
        }
    }
    Queue {
        head: None,
        next: commands.len(),
    }
}

/// The first steerable record from this index on.
pub(crate) fn next_packet(records: &[Record], from: usize) -> Queue
    requires { length records.now ≤ 200000 }
    ensures head { IsHead (packets_after records.now from) (packets_after records.now result.next)
        result.head }
    ensures behind { IsBehind from result.next result.head }
    ensures within { result.next ≤ length records.now }
{
    for i in from..records.len() {
        if let Body::Steerable(_) = records[i].body {
            let number = i as u32 + 1;
            return Queue {
                head: Some(Due {
                    moment: records[i].moment.0,
                    number: number as usize,
                    call: Call::Steers(number),
                }),
                next: i + 1,
            };
        }
    }
    Queue {
        head: None,
        next: records.len(),
    }
}
