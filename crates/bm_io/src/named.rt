//! Files in memory, found by name.
ghost use Rattle.std.specs.Prelude.{◌≡◌, List, ℕ, option_map};
ghost use Rattle.bm_io.specs.Named.{find_by};

/// A file in memory.
pub(crate) trait Named {
    ghost name_of: { Self → List ℕ };

    fn name(&self) -> &str
        ensures { result.now ≡ name_of self.now };
}

/// The first file of this name.
pub(crate) fn find<'a, T: Named>(files: &'a [T], name: &str) -> Option<&'a T>
    ensures { option_map (λ file. file.now) result ≡ find_by T.name_of name.now files.now }
{
    for file in files {
        if file.name() == name {
            return Some(file);
        }
    }
    None
}
