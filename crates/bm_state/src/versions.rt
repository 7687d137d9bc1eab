//! The versions of tables after some events.
ghost use Rattle.std.specs.Prelude.{◌≡◌, ◌<◌, ℕ, [], ◌∷◌, List, OnOk, if◌then◌else◌, ◌==◌, length};
ghost use Rattle.std.specs.Prelude.{slice_index_or};
ghost use Rattle.bm_core.specs.Past.{newest, version_at};
ghost use Rattle.bm_core.specs.declared.events.Event.{Event};
ghost use Rattle.bm_state.specs.Versions.{KeepsVersions, unset};

use crate::slots::{set_value, value_at};
use bm_base::{MuxId, Version};
use bm_core::What;
use std::alloc::{AllocError, Global};

/// The newest version, and the version of each mux.
#[derive(Drop)]
pub struct Versions {
    newest: Version,
    muxes: Vec<Version>,
}

impl Versions {
    /// Before the first event.
    pub fn new(alloc: Global) -> Versions
        ensures { KeepsVersions [] result }
    {
        Versions {
            newest: Version(0),
            muxes: Vec::new(alloc),
        }
    }

    /// The newest version that was published, or 0.
    pub fn newest(&self) -> Version
        ensures { (past : List Event) → KeepsVersions past self.now → result.0 ≡ newest past }
    {
        self.newest
    }

    /// The version of the mux.
    pub fn of(&self, mux: MuxId) -> Version
        ensures { (past : List Event) → KeepsVersions past self.now
            → result ≡ version_at past mux }
    {
        value_at(self.muxes.as_slice(), u32::from(mux.0), Version(0))
    }

    fn switch(&mut self, mux: MuxId, version: Version) -> Result<(), AllocError>
        ensures newest { self.new.newest ≡ self.old.newest }
        ensures muxes { OnOk result ((q : ℕ) → slice_index_or self.new.muxes.items q unset
            ≡ (if mux.0 == q then version else slice_index_or self.old.muxes.items q unset)) }
    {
        set_value(&mut self.muxes, u32::from(mux.0), version, Version(0))
    }

    /// Becomes a copy of the other, in the memory that it has.
    pub fn copy_from(&mut self, other: &Versions) -> Result<(), AllocError>
        ensures { (past : List Event) → KeepsVersions past other.now
            → OnOk result (KeepsVersions past self.new) }
    {
        self.newest = other.newest;
        self.muxes.clear();
        self.muxes.extend_from_slice(other.muxes.as_slice())?;
        Ok(())
    }

    /// Records what happens next.
    pub fn observe(&mut self, what: What) -> Result<(), AllocError>
        ensures { (past : List Event) (e : Event) → e.what ≡ what → KeepsVersions past self.old
            → OnOk result (KeepsVersions (e ∷ past) self.new) }
    {
        match what {
            What::Publish(version) => self.newest = version,
            What::Switch { mux, version } => return self.switch(mux, version),
            What::Steer { .. }
            | What::Lose { .. }
            | What::Arrive { .. }
            | What::Close { .. }
            | What::Retire { .. }
            | What::Sync => {}
        }
        Ok(())
    }
}
