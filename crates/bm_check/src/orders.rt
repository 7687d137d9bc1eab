//! Whether the commands of a script are carried out.
ghost use Rattle.std.specs.Prelude.{◌≡◌, ◌<◌, ◌≤◌, ◌+◌, ◌-◌, ◌^◌, ℕ, ◌∷◌, List, Some, None, IfOk, MatchBool, OnOk, suc};
ghost use Rattle.std.specs.Prelude.{if◌then◌else◌, length, reverse, true};
ghost use Rattle.std.specs.Bool.{Decides};
ghost use Rattle.bm_table.specs.declared.script.Command.{Command};
ghost use Rattle.bm_core.specs.Accounts.{AreCarriedOut, count_of};
ghost use Rattle.bm_core.specs.Past as past;
ghost use Rattle.bm_core.specs.Past.{newest};
ghost use Rattle.bm_core.specs.Stages.{IsSound};
ghost use Rattle.bm_check.specs.Inside.Orders.{Opens, asked, asks, asks_below, carried, carries};
ghost use Rattle.bm_check.specs.Inside.Orders.{open_in, order_in, same_order};

use bm_base::{Flow, Memory, ServerId};
use bm_core::{Event, Stage, What};
use bm_state::one_more;
use bm_table::Command;
use std::alloc::Global;
use std::collections::BTreeMap;

/// What a command asks for and an event carries out: that a server closes a flow, that a server's
/// shard is asked to retire, or a sync.
#[derive(Clone, Copy, PartialEq, Eq, PartialOrd, Ord, Drop)]
pub(crate) enum Order {
    Close(u16, u32, u32, u16, u16),
    Retire(u16, u16),
    Sync,
}

impl Order {
    fn close(server: ServerId, flow: &Flow) -> Order
        ensures { result ≡ Order.Close server.0 flow.now.src flow.now.dst flow.now.sport
            flow.now.dport }
    {
        Order::Close(server.0, flow.src, flow.dst, flow.sport, flow.dport)
    }
}

/// What the event carries out.
fn order_of(what: What) -> Option<Order>
    ensures { result ≡ order_in what }
{
    match what {
        What::Close { server, flow, .. } => Some(Order::close(server, &flow)),
        What::Retire { server, shard, .. } => Some(Order::Retire(server.0, shard)),
        What::Sync => Some(Order::Sync),
        What::Publish(_)
        | What::Switch { .. }
        | What::Steer { .. }
        | What::Lose { .. }
        | What::Arrive { .. } => None,
    }
}

/// How often each order is still to be carried out. One that isn't has no entry.
#[derive(Drop)]
pub(crate) struct Orders {
    counts: BTreeMap<Order, u64>,
}

impl Orders {
    fn new(alloc: Global) -> Orders
        ensures { Opens (λ q. 0) result }
    {
        Orders {
            counts: BTreeMap::new(alloc),
        }
    }

    fn count(&self, order: Order) -> u64
        ensures { (f : Order → ℕ) → Opens f self.now → result ≡ f order }
    {
        match self.counts.get(&order) {
            Some(count) => *count,
            None => 0,
        }
    }

    fn put(&mut self, order: Order, count: u64) -> Result<(), Memory>
        ensures { OnOk result ((q : Order) → open_in self.new q
            ≡ (if same_order order q then Some count else open_in self.old q)) }
    {
        self.counts.insert(order, count)?;
        Ok(())
    }

    fn remove(&mut self, order: Order)
        ensures { (q : Order) → open_in self.new q
            ≡ (if same_order order q then None else open_in self.old q) }
    {
        self.counts.remove(&order);
    }

    /// One more of the order.
    fn ask(&mut self, order: Order) -> Result<(), Memory>
        ensures { (f : Order → ℕ) → f order < 2 ^ 63 → Opens f self.old
            → OnOk result (Opens (λ q. (if same_order order q then 1 else 0) + f q) self.new) }
    {
        let count = self.count(order);
        self.put(order, one_more(count))?;
        Ok(())
    }

    /// One less of the order, if there is one.
    fn carry(&mut self, order: Order) -> Result<bool, Memory>
        ensures { (f : Order → ℕ) → Opens f self.old → IfOk result (λ is. MatchBool is
            ((0 < f order)
            × Opens (λ q. f q - (if same_order order q then 1 else 0)) self.new)
            (f order ≡ 0)) }
    {
        let count = self.count(order);
        if count == 0 {
            return Ok(false);
        }
        if count == 1 {
            self.remove(order);
        } else {
            self.put(order, count - 1)?;
        }
        Ok(true)
    }

    /// One more request to retire each of the server's first `shards` shards.
    fn ask_shards(&mut self, server: ServerId, shards: u16) -> Result<(), Memory>
        ensures { (f : Order → ℕ) → ((q : Order) → f q < 2 ^ 62) → Opens f self.old → OnOk result
            (Opens (λ q. (if asks_below server.0 shards q then 1 else 0) + f q) self.new) }
    {
        for shard in 0..shards {
            self.ask(Order::Retire(server.0, shard))?;
        }
        Ok(())
    }

    /// One more of each order that the command gives.
    fn ask_command(&mut self, shards: u16, command: Command) -> Result<(), Memory>
        ensures { (f : Order → ℕ) → ((q : Order) → f q < 2 ^ 62) → Opens f self.old → OnOk result
            (Opens (λ q. (if asks shards command q then 1 else 0) + f q) self.new) }
    {
        match command {
            Command::Change(_) => Ok(()),
            Command::Close { server, flow, .. } => self.ask(Order::close(server, &flow)),
            Command::Retire { server, .. } => self.ask_shards(server, shards),
            Command::Sync { .. } => self.ask(Order::Sync),
        }
    }

    /// All orders of the stage's commands.
    fn of_stage(alloc: Global, stage: &Stage) -> Result<Orders, Memory>
        requires { length stage.now.script.commands ≤ 65536 }
        ensures { IfOk result (λ orders. Opens (asked stage.now) orders) }
    {
        let mut orders = Orders::new(alloc);
        let shards = stage.script.setting.shards;
        let commands = stage.script.commands.items();
        for command in commands {
            orders.ask_command(shards, *command)?;
        }
        Ok(orders)
    }

    /// One less of the order that the event carries out, if it carries out one that is open.
    fn carry_event(&mut self, what: What) -> Result<bool, Memory>
        ensures { (f : Order → ℕ) → Opens f self.old → IfOk result (λ is. MatchBool is
            (((q : Order) → (if carries what q then 1 else 0) ≤ f q)
            × Opens (λ q. f q - (if carries what q then 1 else 0)) self.new)
            ((q : Order) × (carries what q ≡ true) × (f q ≡ 0))) }
    {
        match order_of(what) {
            Some(order) => {
                let carried = self.carry(order)?;
                Ok(carried)
            }
            None => Ok(true),
        }
    }

    /// Takes away all orders that the events carry out, if each of these was open.
    fn carry_events(&mut self, events: &[Event]) -> Result<bool, Memory>
        ensures { (f : Order → ℕ) → Opens f self.old → IfOk result (λ all. MatchBool all
            (((q : Order) → carried (reverse events.now) q ≤ f q)
            × Opens (λ q. f q - carried (reverse events.now) q) self.new)
            ((q : Order) × (f q < carried (reverse events.now) q))) }
    {
        for event in events {
            if !self.carry_event(event.what)? {
                return Ok(false);
            }
        }
        Ok(true)
    }

    /// Whether no order is open.
    fn are_done(&self) -> bool
        ensures { (f : Order → ℕ) → Opens f self.now
            → MatchBool result ((q : Order) → f q ≡ 0) ((q : Order) × (0 < f q)) }
    {
        match self.counts.first_key_value() {
            Some(_) => false,
            None => true,
        }
    }
}

/// The newest version after the event, where this was the newest before it.
fn published_by(what: What, before: u32) -> u32
    ensures { result ≡ past.published_by what before }
{
    match what {
        What::Publish(version) => version.0,
        What::Switch { .. }
        | What::Steer { .. }
        | What::Lose { .. }
        | What::Arrive { .. }
        | What::Close { .. }
        | What::Retire { .. }
        | What::Sync => before,
    }
}

/// The newest version that these events publish.
fn newest_version(events: &[Event]) -> u32
    ensures { result ≡ newest (reverse events.now) }
{
    let mut newest = 0;
    for event in events {
        newest = published_by(event.what, newest);
    }
    newest
}

/// Whether each command has its events, and there are no others.
pub(crate) fn is_carried_out(alloc: Global, stage: &Stage, events: &[Event]) -> Result<bool, Memory>
    requires { IsSound stage.now }
    ensures { IfOk result
        (λ is. Decides is (AreCarriedOut stage.now (reverse events.now))) }
{
    if newest_version(events) != stage.script.plan.versions() {
        return Ok(false);
    }
    let mut orders = Orders::of_stage(alloc, stage)?;
    if !orders.carry_events(events)? {
        return Ok(false);
    }
    Ok(orders.are_done())
}
