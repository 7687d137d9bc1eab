//! The commands of a script, read in their order.
ghost use Rattle.std.specs.Prelude.{◌≡◌, ◌≢◌, ◌≤◌, ◌<◌, Ok, Err, OnOk, IfOk, IfErr, IsOk, IsErrAnd, length, None};
ghost use Rattle.std.specs.Prelude.{Some};
ghost use Rattle.bm_controller.specs.Commands as orders;
ghost use Rattle.bm_controller.specs.Commands.Command.{AddServer};
ghost use Rattle.bm_controller.specs.declared.refusal.RackRefusal.TheVariants.{Base as base};
ghost use Rattle.bm_controller.specs.Membership.{KeepsMembership};
ghost use Rattle.bm_policy.specs.Policies.{IsNumber};
ghost use Rattle.bm_quota.specs.declared.refusal.Refusal.TheVariants.{Memory as no_memory};
ghost use Rattle.bm_script.specs.Commands as commands;
ghost use Rattle.bm_script.specs.Faults as faults;
ghost use Rattle.bm_script.specs.Keys.{verb_keys};
ghost use Rattle.bm_script.specs.Inside.Readings.{IsCounted, IsPublished, Reads, command_fault};
ghost use Rattle.bm_script.specs.Inside.Readings.{progress};
ghost use Rattle.bm_script.specs.Inside.Rules.{AsksRule, IsRackRule};
ghost use Rattle.bm_script.specs.Scripts.{commands_of, opened};
ghost use Rattle.bm_script.specs.Values as values;
ghost use Rattle.bm_script.specs.declared.fault.ScriptFault.TheVariants.{Memory as memory};
ghost use Rattle.bm_script.specs.declared.key.Key.TheVariants as key_;
ghost use Rattle.bm_script.specs.Inside.Openings.{IsOpening};
ghost use Rattle.bm_table.specs.Settings as settings;
ghost use Rattle.bm_table.specs.Settings.{IsWithin};
ghost use Rattle.toml.specs.View.{items_view, table_view, view};

use crate::key::only_keys;
use crate::top::Opening;
use crate::value::{
    required, required_endpoint, required_number, required_server, required_weight,
};
use crate::{Key, Place, ScriptFault};
use bm_base::{Flow, List, Moment, ServerId, Version};
use bm_controller::{RackController, RackRefusal};
use bm_policy::Policy;
use bm_quota::Refusal;
use bm_table::{Command, Plan, rack_of};
use std::alloc::Global;
use toml::{Table, Value};

/// The latest moment of a command, in nanoseconds.
const MAX_MOMENT: u64 = 4_000_000_000_000_000_000;

/// What a command does.
#[derive(Clone, Copy, PartialEq, Eq)]
pub(crate) enum Verb {
    Add,
    Drain,
    Move,
    Close,
    Retire,
    Sync,
    Weigh,
}

impl Verb {
    /// The verb of a word in a script of this version.
    fn from_word(version: u8, word: &str) -> Option<Verb>
        ensures { result ≡ values.verb_of version word.now }
    {
        match word {
            "add" => Some(Verb::Add),
            "drain" => Some(Verb::Drain),
            "move" => Some(Verb::Move),
            "close" => Some(Verb::Close),
            "retire" => Some(Verb::Retire),
            "sync" => Some(Verb::Sync),
            "weight" if version >= 2 => Some(Verb::Weigh),
            _ => None,
        }
    }

    /// The keys of a command.
    fn keys(self) -> &'static [Key]
        ensures { result.now ≡ verb_keys self }
    {
        match self {
            Verb::Add | Verb::Weigh => &[Key::At, Key::Do, Key::Server, Key::Weight],
            Verb::Drain | Verb::Retire => &[Key::At, Key::Do, Key::Server],
            Verb::Move => &[Key::At, Key::Do, Key::Bucket, Key::Server],
            Verb::Close => &[Key::At, Key::Do, Key::Server, Key::From, Key::To],
            Verb::Sync => &[Key::At, Key::Do],
        }
    }
}

fn required_verb(table: &Table, place: Place, version: u8) -> Result<Verb, ScriptFault>
    ensures { result ≡ faults.required place key_.Do (values.verb version) (table_view table.now) }
{
    let value = required(table, place, Key::Do)?;
    verb_of(version, value).ok_or(ScriptFault::BadValue(place, Key::Do))
}

pub(crate) fn verb_of(version: u8, value: &Value) -> Option<Verb>
    ensures { result ≡ values.verb version (view value.now) }
{
    Verb::from_word(version, value.as_str()?)
}

/// The weight of a server that is added. A script of version 1 doesn't say it: it is 1.
fn added_weight(table: &Table, place: Place, version: u8) -> Result<u32, ScriptFault>
    ensures gives { result ≡ commands.added_weight version place (table_view table.now) }
    ensures within { IfOk result (IsWithin 1 1000) }
{
    if version < 2 {
        return Ok(1);
    }
    required_weight(table, place)
}

/// The plan that the commands of these tables make, and the commands, in a script of this version
/// that opens so.
pub(crate) fn read_commands(
    alloc: Global,
    version: u8,
    opening: &Opening,
    tables: &[Value],
) -> Result<(Plan, List<Command>), ScriptFault>
    requires setting { IsOpening opening.now }
    requires few { length tables.now ≤ 65536 }
    ensures gives { faults.Gives result (commands_of version opening.now (items_view tables.now)) }
    ensures membership { IfOk result (λ read. KeepsMembership read.0) }
{
    let racks = opening.setting.racks;
    let policy = Policy::new(
        |server: ServerId| -> u16
            requires { 1 ≤ racks }
            ensures { result ≡ settings.rack_of racks server }
        { rack_of(racks, server) },
        racks,
    );
    let reading = read_tables(alloc, version, opening, policy, tables)?;
    Ok(reading.into_parts())
}

/// The commands of these tables, carried out on the opening's servers in the racks that the policy
/// gives them.
fn read_tables<P: Fn(ServerId) -> u16 + Drop>(
    alloc: Global,
    version: u8,
    opening: &Opening,
    policy: Policy<P>,
    tables: &[Value],
) -> Result<Reading<P>, ScriptFault>
    requires setting { IsOpening opening.now }
    requires rule { IsRackRule P.Fn policy.rule policy.racks }
    requires racks { policy.racks ≡ opening.now.setting.racks }
    requires few { length tables.now ≤ 65536 }
    ensures ok { IfOk result (λ reading.
        commands.after_commands (opened version opening.now) (items_view tables.now)
        ≡ Ok (progress reading)) }
    ensures err { IfErr result (λ fault. fault ≢ memory
        → commands.after_commands (opened version opening.now) (items_view tables.now)
        ≡ Err fault) }
{
    let setting = &opening.setting;
    let mut reading = Reading {
        version,
        controller: RackController::new(
            alloc,
            setting.buckets,
            setting.servers.items(),
            opening.weights.items(),
            policy,
        )?,
        last: 0,
        versions: 0,
        commands: Vec::new(alloc),
    };
    for value in tables {
        let Some(table) = value.as_table() else {
            return Err(ScriptFault::BadValue(Place::Top, Key::Command));
        };
        reading.read(alloc, table)?;
    }
    Ok(reading)
}

/// The commands read so far, and the controller that carries them out.
#[derive(Drop)]
struct Reading<P> {
    /// The script's version.
    version: u8,
    controller: RackController<P>,
    /// The moment of the last command, or 0.
    last: u64,
    /// How many changes the controller's plan has.
    versions: u32,
    commands: Vec<Command>,
}

impl<P: Fn(ServerId) -> u16 + Drop> Reading<P> {
    /// Reads the command of a table, and carries it out.
    fn read(&mut self, alloc: Global, table: &Table) -> Result<(), ScriptFault>
        requires few { length self.old.commands.items < 65536 }
        requires counted { IsCounted self.old }
        requires asks { AsksRule P.Fn self.old.controller }
        ensures { Reads self.old self.new
            (commands.after_command (progress self.old) (table_view table.now)) result }
    {
        let place = Place::Command(self.number());
        let at = required_number(table, place, Key::At, self.last, MAX_MOMENT)?;
        let verb = required_verb(table, place, self.version)?;
        only_keys(alloc, table, place, self.version, verb.keys())?;
        self.carry_out(at, verb, table)
    }

    /// The plan that the commands made, and the commands.
    fn into_parts(self) -> (Plan, List<Command>)
        ensures plan { result.0 ≡ self.controller.engine.plan }
        ensures membership { KeepsMembership result.0 }
        ensures commands { result.1 ≡ self.commands.items }
    {
        let Reading {
            version: _,
            controller,
            last: _,
            versions: _,
            commands,
        } = self;
        (controller.into_plan(), List::of(commands))
    }

    /// The number of the next command.
    fn number(&self) -> u32
        requires { length self.now.commands.items < 65536 }
        ensures { result ≡ commands.next (progress self.now) }
    {
        self.commands.len() as u32 + 1
    }

    fn carry_out(&mut self, at: u64, verb: Verb, table: &Table) -> Result<(), ScriptFault>
        requires few { length self.old.commands.items < 65536 }
        requires counted { IsCounted self.old }
        requires asks { AsksRule P.Fn self.old.controller }
        ensures { Reads self.old self.new
            (commands.carried (progress self.old) at verb (table_view table.now)) result }
    {
        match verb {
            Verb::Add => self.add(at, table),
            Verb::Drain => self.drain(at, table),
            Verb::Move => self.shift(at, table),
            Verb::Close => self.close(at, table),
            Verb::Retire => self.retire(at, table),
            Verb::Sync => self.push(at, Command::Sync { at: Moment(at) }),
            Verb::Weigh => self.weigh(at, table),
        }
    }

    fn add(&mut self, at: u64, table: &Table) -> Result<(), ScriptFault>
        requires few { length self.old.commands.items < 65536 }
        requires counted { IsCounted self.old }
        requires asks { AsksRule P.Fn self.old.controller }
        ensures { Reads self.old self.new
            (commands.carried (progress self.old) at Verb.Add (table_view table.now)) result }
    {
        let place = Place::Command(self.number());
        let server = required_server(table, place)?;
        let weight = added_weight(table, place, self.version)?;
        let answer = add_server(&mut self.controller, Moment(at), server, weight);
        self.publish(at, answer)
    }

    fn drain(&mut self, at: u64, table: &Table) -> Result<(), ScriptFault>
        requires few { length self.old.commands.items < 65536 }
        requires counted { IsCounted self.old }
        ensures { Reads self.old self.new
            (commands.carried (progress self.old) at Verb.Drain (table_view table.now)) result }
    {
        let server = required_server(table, Place::Command(self.number()))?;
        let answer = self.controller.drain(Moment(at), server);
        self.publish(at, answer)
    }

    fn weigh(&mut self, at: u64, table: &Table) -> Result<(), ScriptFault>
        requires few { length self.old.commands.items < 65536 }
        requires counted { IsCounted self.old }
        ensures { Reads self.old self.new
            (commands.carried (progress self.old) at Verb.Weigh (table_view table.now)) result }
    {
        let place = Place::Command(self.number());
        let server = required_server(table, place)?;
        let weight = required_weight(table, place)?;
        let answer = self.controller.weigh(Moment(at), server, weight);
        self.publish(at, answer)
    }

    fn shift(&mut self, at: u64, table: &Table) -> Result<(), ScriptFault>
        requires few { length self.old.commands.items < 65536 }
        requires counted { IsCounted self.old }
        ensures { Reads self.old self.new
            (commands.carried (progress self.old) at Verb.Move (table_view table.now)) result }
    {
        let place = Place::Command(self.number());
        let bucket = required_number(table, place, Key::Bucket, 0, 65_535)?;
        let server = required_server(table, place)?;
        let answer = self.controller.shift(Moment(at), bucket as u32, server);
        self.publish(at, answer)
    }

    fn close(&mut self, at: u64, table: &Table) -> Result<(), ScriptFault>
        requires few { length self.old.commands.items < 65536 }
        requires counted { IsCounted self.old }
        ensures { Reads self.old self.new
            (commands.carried (progress self.old) at Verb.Close (table_view table.now)) result }
    {
        let place = Place::Command(self.number());
        let server = required_server(table, place)?;
        let from = required_endpoint(table, place, Key::From)?;
        let to = required_endpoint(table, place, Key::To)?;
        let flow = Flow {
            src: from.addr,
            dst: to.addr,
            sport: from.port,
            dport: to.port,
        };
        let command = Command::Close {
            at: Moment(at),
            server,
            flow,
        };
        self.ask(at, server, command)
    }

    fn retire(&mut self, at: u64, table: &Table) -> Result<(), ScriptFault>
        requires few { length self.old.commands.items < 65536 }
        requires counted { IsCounted self.old }
        ensures { Reads self.old self.new
            (commands.carried (progress self.old) at Verb.Retire (table_view table.now)) result }
    {
        let place = Place::Command(self.number());
        let server = required_server(table, place)?;
        let command = Command::Retire {
            at: Moment(at),
            server,
        };
        self.ask(at, server, command)
    }

    /// Adds a command, which leads to the change that the controller made last, unless it refused.
    fn publish(&mut self, at: u64, answer: Result<(), RackRefusal>) -> Result<(), ScriptFault>
        requires few { length self.old.commands.items < 65536 }
        requires versions { self.old.versions < 65536 }
        ensures ok { OnOk result (IsPublished self.old self.new at) }
        ensures accepted { OnOk result (IsOk answer) }
        ensures err { IfErr result (λ fault. fault ≢ memory → IsErrAnd answer
            (λ refusal. fault ≡ command_fault (commands.next (progress self.old)) refusal)) }
    {
        if let Err(refusal) = answer {
            return Err(fault_of(self.number(), refusal));
        }
        let version = self.versions + 1;
        self.commands.push(Command::Change(Version(version)))?;
        self.versions = version;
        self.last = at;
        Ok(())
    }

    /// Adds a command to a server that must be known.
    fn ask(&mut self, at: u64, server: ServerId, command: Command) -> Result<(), ScriptFault>
        requires few { length self.old.commands.items < 65536 }
        requires counted { IsCounted self.old }
        ensures { Reads self.old self.new
            (commands.asked_of_known (progress self.old) at server command) result }
    {
        if !self.controller.knows(server) {
            return Err(ScriptFault::Refused(self.number(), Refusal::UnknownServer));
        }
        self.push(at, command)
    }

    fn push(&mut self, at: u64, command: Command) -> Result<(), ScriptFault>
        requires { IsCounted self.old }
        ensures { Reads self.old self.new
            (Ok (commands.with_command (progress self.old) at command)) result }
    {
        self.commands.push(command)?;
        self.last = at;
        Ok(())
    }
}

/// Adds a server with its weight, in the rack that scripts give it.
fn add_server<P: Fn(ServerId) -> u16 + Drop>(
    controller: &mut RackController<P>,
    at: Moment,
    server: ServerId,
    weight: u32,
) -> Result<(), RackRefusal>
    requires number { IsNumber server }
    requires weight { IsWithin 1 1000 weight }
    requires asks { AsksRule P.Fn controller.old }
    ensures ok { OnOk result (controller.new.engine ≡ orders.after controller.old.engine at
        (AddServer server weight (settings.rack_of controller.old.engine.racks server))) }
    ensures accepted { OnOk result (orders.refusal controller.old.engine at
        (AddServer server weight (settings.rack_of controller.old.engine.racks server)) ≡ None) }
    ensures refused { IfErr result (λ refusal. refusal ≢ base no_memory
        → orders.refusal controller.old.engine at
        (AddServer server weight (settings.rack_of controller.old.engine.racks server))
        ≡ Some refusal) }
    ensures policy { controller.new.policy ≡ controller.old.policy }
{
    controller.add(at, server, weight)
}

/// A refusal as a fault of the command of this number.
fn fault_of(number: u32, refusal: RackRefusal) -> ScriptFault
    ensures { result ≡ command_fault number refusal }
{
    match refusal {
        RackRefusal::Base(Refusal::Memory) => ScriptFault::Memory,
        RackRefusal::Base(refusal) => ScriptFault::Refused(number, refusal),
        RackRefusal::LastInRack | RackRefusal::WrongRack => ScriptFault::Rack(number, refusal),
    }
}
