//! Files in memory that never fail.
ghost use Rattle.std.specs.Prelude.{◌≡◌, ◌≤◌, [], Some, IfOk, option_map};
ghost use Rattle.bm_io.specs.SureNames.{IsSourceOf, octets_in, octets_of};

use crate::named::{Named, find};
use crate::sure_file::SureFile;
use crate::{Files, IoFault, Opening, Source, SureSource};
use bm_base::Text;
use std::alloc::{AllocError, Global};

/// Files in memory, which keep the names that they were asked for. They never fail, and a name
/// that isn't there has no octets.
#[derive(Drop)]
pub struct SureFiles {
    alloc: Global,
    files: Vec<SureFile>,
    asked: Vec<Opening>,
    open_now: u32,
}

impl SureFiles {
    /// These files; none was asked for yet.
    pub fn new(alloc: Global, files: Vec<SureFile>) -> SureFiles
        ensures octets { ⟦<SureFiles as Files>⟧.octets result ≡ Some (octets_of files.items) }
        ensures asked { ⟦<SureFiles as Files>⟧.asked result ≡ Some [] }
        ensures faults { ⟦<SureFiles as Files>⟧.faults result ≡ 0 }
        ensures open { ⟦<SureFiles as Files>⟧.open_now result ≡ 0 }
        ensures files { result.files ≡ files }
    {
        SureFiles {
            alloc,
            files,
            asked: Vec::new(alloc),
            open_now: 0,
        }
    }
}

impl Named for SureFile {
    ghost name_of = { λ file. file.name };

    fn name(&self) -> &str {
        self.name.as_str()
    }
}

fn open_found(alloc: Global, found: Option<&SureFile>) -> Result<SureSource, AllocError>
    ensures left { IfOk result
        (λ src. ⟦<SureSource as Source>⟧.left src
        ≡ Some (octets_in (option_map (λ file. file.now) found.entry))) }
    ensures source { IfOk result (IsSourceOf (option_map (λ file. file.now) found.entry)) }
{
    match found {
        Some(file) => {
            let octets = Vec::from_slice(alloc, file.octets.items())?;
            Ok(SureSource::new(octets, file.step))
        }
        None => Ok(SureSource::new(Vec::new(alloc), 1)),
    }
}

impl Files for SureFiles {
    ghost use Rattle.bm_io.specs.Causes.{HasIoCause};
    ghost use Rattle.std.specs.Prelude.{◌<◌, ◌+◌};
    ghost use Rattle.bm_io.specs.Names.{HasOctetsOf, Asks, open_after, opening};
    ghost use Rattle.bm_io.specs.SureNames.{file_of};

    type Src = SureSource;

    ghost octets = { λ m. Some (octets_of m.files.items) };

    ghost asked = { λ m. Some m.asked.items };

    ghost faults = { λ _. 0 };

    ghost open_now = { λ m. m.open_now };

    fn open(&mut self, name: &str) -> Result<SureSource, IoFault>
        requires room { self.old.open_now < 4294967295 }
        ensures left { IfOk result
            (λ src. HasOctetsOf (Some (octets_of self.old.files.items)) name.now
            (⟦<SureSource as Source>⟧.left src)) }
        ensures asked { Asks (Some self.old.asked.items) (Some self.new.asked.items)
            (opening 0 self.old.open_now name.now) result }
        ensures cause { HasIoCause 0 0 result }
        ensures open { self.new.open_now ≡ open_after result self.old.open_now }
        ensures source { IfOk result (IsSourceOf (file_of self.old.files.items name.now)) }
        ensures same { self.new.files ≡ self.old.files }
    {
        let source = open_found(self.alloc, find(&self.files, name))?;
        let asked = Opening {
            name: Text::of(String::from_str(self.alloc, name)?),
            faults: 0,
            open_now: self.open_now,
        };
        self.asked.push(asked)?;
        self.open_now += 1;
        Ok(source)
    }

    fn close(&mut self, src: SureSource)
        requires open { 1 ≤ self.old.open_now }
        ensures asked { Some self.new.asked.items ≡ Some self.old.asked.items }
        ensures closed { self.new.open_now + 1 ≡ self.old.open_now }
        ensures files { self.new.files ≡ self.old.files }
    {
        self.open_now -= 1;
        drop(src);
    }
}
