//! The base of a stage: the same without the commands that change the table.
ghost use Rattle.std.specs.Prelude.{◌≡◌, ◌++◌, ◌∷◌, [], IfOk, OnOk, filter};
ghost use Rattle.bm_core.specs.Stages.{IsSound};
ghost use Rattle.bm_table.specs.Scripts.{IsSoundScript};
ghost use Rattle.bm_table.specs.Tables.{is_among};
ghost use Rattle.bm_connections.specs.Base as spec;

use bm_base::{Capture, List, Memory, ServerId};
use bm_core::Stage;
use bm_table::{Command, Plan, Script, Setting};
use std::alloc::{AllocError, Global};

/// The base of a stage, and what the stage has in place of the base's plan and commands.
#[derive(Drop)]
pub struct Parted {
    pub base: Stage,
    pub plan: Plan,
    pub commands: List<Command>,
}

fn is_one_of(servers: &[ServerId], server: ServerId) -> bool
    ensures { result ≡ is_among servers.now server }
{
    for other in servers {
        if other.0 == server.0 {
            return true;
        }
    }
    false
}

/// Whether the command is one of the base's.
fn stays(servers: &[ServerId], command: Command) -> bool
    ensures { result ≡ spec.stays servers.now command }
{
    match command {
        Command::Change(_) => false,
        Command::Close { server, .. } => is_one_of(servers, server),
        Command::Retire { server, .. } => is_one_of(servers, server),
        Command::Sync { .. } => true,
    }
}

/// Appends the command, if it is one of the base's.
fn push_staying(
    kept: &mut Vec<Command>,
    servers: &[ServerId],
    command: Command,
) -> Result<(), AllocError>
    ensures { OnOk result
        (kept.new.items ≡ kept.old.items ++ filter (spec.stays servers.now) (command ∷ [])) }
{
    if stays(servers, command) {
        kept.push(command)?;
    }
    Ok(())
}

/// The base's commands.
fn base_commands(
    alloc: Global,
    servers: &[ServerId],
    commands: &[Command],
) -> Result<Vec<Command>, AllocError>
    ensures { IfOk result (λ kept. kept.items ≡ filter (spec.stays servers.now) commands.now) }
{
    let mut kept = Vec::new(alloc);
    for command in commands {
        push_staying(&mut kept, servers, *command)?;
    }
    Ok(kept)
}

/// The base's plan and commands.
fn base_parts(alloc: Global, script: &Script) -> Result<(Plan, List<Command>), Memory>
    requires { IsSoundScript script.now }
    ensures plan { IfOk result (λ parts. parts.0 ≡ spec.base_plan script.now.setting) }
    ensures commands { IfOk result (λ parts. parts.1 ≡ (spec.base_script script.now).commands) }
{
    let servers = script.setting.servers.items();
    let plan = Plan::new(alloc, script.setting.buckets, servers)?;
    let commands = base_commands(alloc, servers, script.commands.items())?;
    Ok((plan, List::of(commands)))
}

/// The base of the stage, with the plan and the commands of the stage. The capture is moved.
pub fn part(alloc: Global, stage: Stage) -> Result<Parted, Memory>
    requires { IsSound stage }
    ensures base { IfOk result (λ parted. parted.base ≡ spec.base_of stage) }
    ensures sound { IfOk result (λ parted. IsSound parted.base) }
    ensures plan { IfOk result (λ parted. parted.plan ≡ stage.script.plan) }
    ensures commands { IfOk result (λ parted. parted.commands ≡ stage.script.commands) }
{
    let (base_plan, base_commands) = base_parts(alloc, &stage.script)?;
    let Stage { script, capture } = stage;
    let Script {
        setting,
        plan,
        commands,
    } = script;
    let base = join(setting, base_plan, base_commands, capture);
    Ok(Parted {
        base,
        plan,
        commands,
    })
}

/// The stage of these parts.
fn join(setting: Setting, plan: Plan, commands: List<Command>, capture: Capture) -> Stage
    ensures { result ≡ record {
      script = record {
        setting = setting;
        plan = plan;
        commands = commands;
      };
      capture = capture;
    } }
{
    let script = Script {
        setting,
        plan,
        commands,
    };
    Stage { script, capture }
}

/// The base with this plan and these commands in place of its own.
pub fn with_changes(base: Stage, plan: Plan, commands: List<Command>) -> Stage
    ensures { result ≡ record {
      script = record {
        setting = base.script.setting;
        plan = plan;
        commands = commands;
      };
      capture = base.capture;
    } }
{
    let Stage { script, capture } = base;
    let Script {
        setting,
        plan: _plan,
        commands: _commands,
    } = script;
    join(setting, plan, commands, capture)
}
