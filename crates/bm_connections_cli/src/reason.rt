//! Why files can't be read.

/// Why a file can't be read.
#[derive(Clone, Copy, PartialEq, Eq)]
pub enum Reason {
    /// There is no file of this name.
    NoSuchFile,
    /// The system doesn't permit it.
    NotPermitted,
    /// It is a folder.
    IsFolder,
}

/// What tells why files can't be read. Nothing is promised of the answers.
pub trait Reasons {
    /// Why the file of this name can't be read; None if that isn't known.
    fn reason(&self, name: &str) -> Option<Reason>;
}
