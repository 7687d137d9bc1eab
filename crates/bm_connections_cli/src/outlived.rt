//! How many connections live longer than the lifetime of the script.
ghost use Rattle.std.specs.Prelude.{◌≡◌, ◌++◌, Some, IfOk, OnOk, string_bytes};
ghost use Rattle.bm_table.specs.Scripts.{IsSoundScript};
ghost use Rattle.bm_lifetime.specs.Lifetime as lives;
ghost use Rattle.bm_connections_cli.specs.Lifetime.{life_text};
ghost use Rattle.bm_connections_cli.specs.Outlived as spec;

use bm_base::{Memory, Text};
use bm_connections::{Connection, SecondsText};
use bm_lifetime::lifetime;
use bm_table::Script;
use std::alloc::{AllocError, Global};
use std::fmt;

/// A lifetime in seconds, or `unbounded`.
#[derive(Clone, Copy)]
pub(crate) struct LifeText(pub(crate) Option<u64>);

impl fmt::Display for LifeText {
    ghost output = { λ life. Some (life_text life.0) };

    fn fmt<W: fmt::Write>(&self, f: &mut fmt::Formatter<W>) -> fmt::Result {
        match self.0 {
            None => write!(f, "unbounded"),
            Some(time) => write!(f, "{}", SecondsText(time)),
        }
    }
}

/// Whether the connection lives longer than this.
fn lives_longer(life: Option<u64>, c: &Connection) -> bool
    ensures { result ≡ spec.lives_longer life c.now }
{
    match life {
        None => false,
        Some(most) => c.last.moment.0.saturating_sub(c.first.moment.0) > most,
    }
}

/// How many of these connections live longer than this.
fn outlived(life: Option<u64>, table: &[Connection]) -> usize
    ensures { result ≡ spec.outlived life table.now }
{
    table.iter().filter(|c| lives_longer(life, c)).count()
}

/// How long connections may live by the script, in nanoseconds.
#[tactic(auto, using(crate::proofs::Outliving::time_of_explained))]
fn time_of(alloc: Global, script: &Script) -> Result<Option<u64>, Memory>
    requires { IsSoundScript script.now }
    ensures { IfOk result (λ life. life ≡ lives.lifetime script.now) }
{
    let life = lifetime(alloc, script)?;
    Ok(life.map(|life| life.time))
}

/// The line of a script with this lifetime, where `longer` of the connections live longer.
fn write_outlived(
    text: &mut String,
    life: Option<u64>,
    longer: usize,
    connections: usize,
) -> Result<(), AllocError>
    ensures { OnOk result (string_bytes text.new
        ≡ string_bytes text.old ++ spec.outlived_line life longer connections) }
{
    let life = LifeText(life);
    writeln!(
        text,
        "lifetime {life} outlived-by {longer} of {connections}"
    )
}

/// The line with the script's lifetime and how many of the connections live longer.
pub(crate) fn outlived_text(
    alloc: Global,
    script: &Script,
    table: &[Connection],
) -> Result<Text, Memory>
    requires { IsSoundScript script.now }
    ensures { IfOk result (λ text.
        text ≡ spec.outlived_text (lives.lifetime script.now) table.now) }
{
    let life = time_of(alloc, script)?;
    let longer = outlived(life, table);
    let mut text = String::new(alloc);
    write_outlived(&mut text, life, longer, table.len())?;
    Ok(Text::of(text))
}
