//! What is wrong with a script.
ghost use Rattle.std.specs.Prelude.{◌≡◌, Some};
ghost use Rattle.bm_script.specs.Faults as faults;
ghost use Rattle.bm_script.specs.declared.fault.ScriptFault.TheVariants.{Memory as memory};

use crate::Key;
use bm_base::{Memory, Text};
use bm_controller::RackRefusal;
use bm_quota::Refusal;
use bm_table::Limit;
use std::alloc::{AllocError, AllocFailed};
use std::fmt;
use thiserror::Error;

/// Where a fault is: at the top of a script, or in the fault table or the command table of this
/// number, from 1.
#[derive(Clone, Copy, Debug, PartialEq, Eq)]
pub enum Place {
    Top,
    Fault(u32),
    Command(u32),
}

impl fmt::Display for Place {
    ghost output = { λ place. Some (faults.place_text place) };

    fn fmt<W: fmt::Write>(&self, f: &mut fmt::Formatter<W>) -> fmt::Result {
        match self {
            Place::Top => write!(f, "script: "),
            Place::Fault(number) => write!(f, "script fault {number}: "),
            Place::Command(number) => write!(f, "script command {number}: "),
        }
    }
}

/// The first fault of a script. Its text names the place and the key, as in
/// `script command 3: missing server`.
#[derive(Debug, Drop, Error)]
pub enum ScriptFault {
    /// The text isn't UTF-8, or it isn't TOML.
    NotToml,
    /// A required key isn't there.
    Missing(Place, Key),
    /// The value of a key is of the wrong kind, or out of its range.
    BadValue(Place, Key),
    /// A key that isn't known there, the least in byte order.
    Unknown(Place, Text),
    /// The command of this number is refused. The refusal is neither Memory nor StampFell.
    Refused(u32, Refusal),
    /// The command of this number is refused for its rack: the refusal is LastInRack or WrongRack.
    Rack(u32, RackRefusal),
    /// Memory was refused.
    Memory,
}

impl fmt::Display for ScriptFault {
    ghost output = { λ fault. Some (faults.fault_text fault) };

    fn fmt<W: fmt::Write>(&self, f: &mut fmt::Formatter<W>) -> fmt::Result {
        match self {
            ScriptFault::NotToml => write!(f, "script: not toml"),
            ScriptFault::Missing(place, key) => write!(f, "{place}missing {key}"),
            ScriptFault::BadValue(place, key) => write!(f, "{place}bad value of {key}"),
            ScriptFault::Unknown(place, key) => {
                let key = key.as_str();
                write!(f, "{place}unknown key {key}")
            }
            ScriptFault::Refused(number, refusal) => {
                write!(f, "script command {number}: {}", refusal_word(*refusal))
            }
            ScriptFault::Rack(number, refusal) => {
                write!(f, "script command {number}: {}", rack_word(*refusal))
            }
            ScriptFault::Memory => write!(f, "script: want of memory"),
        }
    }
}

fn refusal_word(refusal: Refusal) -> &'static str
    ensures { result.now ≡ faults.refusal_word refusal }
{
    match refusal {
        Refusal::KnownServer => "known server",
        Refusal::UnknownServer => "unknown server",
        Refusal::NotActive => "not active",
        Refusal::LastServer => "last server",
        Refusal::BadBucket => "bad bucket",
        Refusal::SameServer => "same server",
        Refusal::StampFell => "stamp fell",
        Refusal::TooMany(Limit::Changes) => "too many changes",
        Refusal::TooMany(Limit::Moves) => "too many moves",
        Refusal::Memory => "want of memory",
    }
}

fn rack_word(refusal: RackRefusal) -> &'static str
    ensures { result.now ≡ faults.rack_word refusal }
{
    match refusal {
        RackRefusal::Base(refusal) => refusal_word(refusal),
        RackRefusal::LastInRack => "last in rack",
        RackRefusal::WrongRack => "wrong rack",
    }
}

impl From<Memory> for ScriptFault {
    ghost from_gives = { λ _ fault. fault ≡ memory };

    fn from(_e: Memory) -> ScriptFault {
        ScriptFault::Memory
    }
}

impl From<AllocError> for ScriptFault {
    ghost from_gives = { λ _ fault. fault ≡ memory };

    fn from(_e: AllocError) -> ScriptFault {
        ScriptFault::Memory
    }
}

impl<T: Drop> From<AllocFailed<T>> for ScriptFault {
    ghost from_gives = { λ _ fault. fault ≡ memory };

    fn from(_e: AllocFailed<T>) -> ScriptFault {
        ScriptFault::Memory
    }
}
