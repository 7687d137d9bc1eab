//! The keys of a script.
ghost use Rattle.std.specs.Prelude.{◌≡◌, Some, option_map};
ghost use Rattle.bm_script.specs.Faults as faults;
ghost use Rattle.bm_script.specs.Keys as known;
ghost use Rattle.toml.specs.View.{table_view};

use crate::{Place, ScriptFault};
use bm_base::Text;
use std::alloc::Global;
use std::fmt;
use toml::Table;

/// A key of a script.
#[derive(Clone, Copy, Debug, PartialEq, Eq)]
pub enum Key {
    At,
    Bucket,
    Buckets,
    Capacity,
    Command,
    Copies,
    Delay,
    Do,
    Fault,
    From,
    Hop,
    Lags,
    Muxes,
    Packet,
    Racks,
    Route,
    Server,
    Servers,
    Shards,
    Timeout,
    To,
    Version,
    Vips,
    Weight,
    Weights,
}

impl Key {
    /// The key as a script has it.
    pub fn word(self) -> &'static str
        ensures { result.now ≡ known.key_word self }
    {
        match self {
            Key::Version => "version",
            Key::Buckets => "buckets",
            Key::Servers => "servers",
            Key::Muxes => "muxes",
            Key::Shards => "shards",
            Key::Capacity => "capacity",
            Key::Timeout => "timeout_s",
            Key::Vips => "vips",
            Key::Route => "route",
            Key::Lags => "lags_ns",
            Key::Fault => "fault",
            Key::Command => "command",
            Key::Packet => "packet",
            Key::Hop => "hop",
            Key::Copies => "copies",
            Key::Delay => "delay_ns",
            Key::At => "at_ns",
            Key::Do => "do",
            Key::Server => "server",
            Key::Bucket => "bucket",
            Key::From => "from",
            Key::To => "to",
            Key::Weight => "weight",
            Key::Weights => "weights",
            Key::Racks => "racks",
        }
    }

    /// The first version of scripts that has the key.
    fn since(self) -> u8
        ensures { result ≡ known.since self }
    {
        match self {
            Key::Weight | Key::Weights => 2,
            Key::Racks => 3,
            _ => 1,
        }
    }
}

impl fmt::Display for Key {
    ghost output = { λ key. Some (known.key_word key) };

    fn fmt<W: fmt::Write>(&self, f: &mut fmt::Formatter<W>) -> fmt::Result {
        f.write_str(self.word())
    }
}

/// Checks that a table of a script of this version has no other keys than these.
pub(crate) fn only_keys(
    alloc: Global,
    table: &Table,
    place: Place,
    version: u8,
    keys: &[Key],
) -> Result<(), ScriptFault>
    ensures { faults.Gives result (faults.only_keys place version keys.now (table_view table.now)) }
{
    let Some(name) = first_unknown(table, version, keys) else {
        return Ok(());
    };
    let name = String::from_str(alloc, name)?;
    Err(ScriptFault::Unknown(place, Text::of(name)))
}

/// The least key in byte order that isn't one of these.
fn first_unknown<'a>(table: &'a Table, version: u8, keys: &[Key]) -> Option<&'a str>
    ensures { option_map (λ name. name.now) result
        ≡ known.first_unknown version keys.now (table_view table.now) }
{
    for (name, _) in table {
        if !is_key(version, keys, name.as_str()) {
            return Some(name.as_str());
        }
    }
    None
}

fn is_key(version: u8, keys: &[Key], name: &str) -> bool
    ensures { result ≡ known.is_key version keys.now name.now }
{
    keys.iter()
        .any(|key| key.since() <= version && name == key.word())
}
