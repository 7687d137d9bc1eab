//! Files in memory that fail at chosen calls.
ghost use Rattle.std.specs.Prelude.{◌≡◌, [], Some, IfOk, option_map};
ghost use Rattle.bm_io.specs.MemNames.{octets_in, octets_of};
ghost use Rattle.bm_io.specs.Inside.MemNames.{IsSourceOfFound};

use crate::named::{Named, find};
use crate::{Files, IoFault, MemFile, MemSource, Opening, Source};
use bm_base::Text;
use std::alloc::{AllocError, Global};

/// Files in memory, which keep the names that they were asked for.
#[derive(Drop)]
pub struct MemFiles {
    alloc: Global,
    files: Vec<MemFile>,
    asked: Vec<Opening>,
    faults: u64,
    open_now: u32,
}

impl MemFiles {
    /// These files; none was asked for yet.
    pub fn new(alloc: Global, files: Vec<MemFile>) -> MemFiles
        ensures octets { ⟦<MemFiles as Files>⟧.octets result ≡ Some (octets_of files.items) }
        ensures asked { ⟦<MemFiles as Files>⟧.asked result ≡ Some [] }
        ensures faults { ⟦<MemFiles as Files>⟧.faults result ≡ 0 }
        ensures open { ⟦<MemFiles as Files>⟧.open_now result ≡ 0 }
        ensures files { result.files ≡ files }
    {
        MemFiles {
            alloc,
            files,
            asked: Vec::new(alloc),
            faults: 0,
            open_now: 0,
        }
    }

    /// How many sources are open now.
    pub fn open_now(&self) -> u32
        ensures { result ≡ ⟦<MemFiles as Files>⟧.open_now self.now }
    {
        self.open_now
    }
}

impl Named for MemFile {
    ghost name_of = { λ file. file.name };

    fn name(&self) -> &str {
        self.name.as_str()
    }
}

fn open_found(alloc: Global, found: Option<&MemFile>) -> Result<MemSource, AllocError>
    ensures left { IfOk result
        (λ src. ⟦<MemSource as Source>⟧.left src
        ≡ Some (octets_in (option_map (λ file. file.now) found.entry))) }
    ensures new { IfOk result (λ src. ⟦<MemSource as Source>⟧.faults src ≡ 0) }
    ensures source { IfOk result (IsSourceOfFound (option_map (λ file. file.now) found.entry)) }
{
    match found {
        Some(file) => {
            let octets = Vec::from_slice(alloc, file.octets.items())?;
            let fails = Vec::from_slice(alloc, file.fails.items())?;
            Ok(MemSource::new(octets, file.step, fails))
        }
        None => Ok(MemSource::new(Vec::new(alloc), 1, Vec::new(alloc))),
    }
}

impl Files for MemFiles {
    ghost use Rattle.std.specs.Prelude.{◌≤◌, ◌<◌, ◌+◌, nat_lt};
    ghost use Rattle.bm_io.specs.Calls.{faults_after, has_failed};
    ghost use Rattle.bm_io.specs.Causes.{HasIoCause};
    ghost use Rattle.bm_io.specs.MemNames.{Opens, file_of};
    ghost use Rattle.bm_io.specs.Names.{HasOctetsOf, Asks, open_after, opening};

    type Src = MemSource;

    ghost octets = { λ m. Some (octets_of m.files.items) };

    ghost asked = { λ m. Some m.asked.items };

    ghost faults = { λ m. m.faults };

    ghost open_now = { λ m. m.open_now };

    fn open(&mut self, name: &str) -> Result<MemSource, IoFault>
        requires room { self.old.open_now < 4294967295 }
        ensures left { IfOk result
            (λ src. HasOctetsOf (Some (octets_of self.old.files.items)) name.now
            (⟦<MemSource as Source>⟧.left src)) }
        ensures new { IfOk result (λ src. ⟦<MemSource as Source>⟧.faults src ≡ 0) }
        ensures asked { Asks (Some self.old.asked.items) (Some self.new.asked.items)
            (opening self.old.faults self.old.open_now name.now) result }
        ensures cause { HasIoCause self.old.faults self.new.faults result }
        ensures open { self.new.open_now ≡ open_after result self.old.open_now }
        ensures opens { Opens (file_of self.old.files.items name.now) result }
        ensures faults { self.new.faults ≡ faults_after (has_failed result) self.old.faults }
        ensures same { self.new.files ≡ self.old.files }
    {
        let found = find(&self.files, name);
        let missing = found.is_none();
        let source = open_found(self.alloc, found)?;
        let asked = Opening {
            name: Text::of(String::from_str(self.alloc, name)?),
            faults: self.faults,
            open_now: self.open_now,
        };
        self.asked.push(asked)?;
        if missing {
            self.faults = self.faults.saturating_add(1);
            return Err(IoFault::Failed);
        }
        self.open_now += 1;
        Ok(source)
    }

    fn close(&mut self, src: MemSource)
        requires open { 1 ≤ self.old.open_now }
        ensures asked { Some self.new.asked.items ≡ Some self.old.asked.items }
        ensures later { self.old.faults ≤ self.new.faults }
        ensures faults { self.new.faults ≡ faults_after (nat_lt 0 src.faults) self.old.faults }
        ensures closed { self.new.open_now + 1 ≡ self.old.open_now }
        ensures files { self.new.files ≡ self.old.files }
    {
        if src.faults() > 0 {
            self.faults = self.faults.saturating_add(1);
        }
        self.open_now -= 1;
    }
}
