//! A vector of one item.
ghost use Rattle.std.specs.Prelude.{◌≡◌, ◌∷◌, [], IfOk};

use bm_base::Memory;
use std::alloc::Global;

pub(crate) fn alone<S: Drop>(alloc: Global, item: S) -> Result<Vec<S>, Memory>
    ensures { IfOk result (λ all. all.items ≡ item ∷ []) }
{
    let mut all = Vec::new(alloc);
    all.push(item)?;
    Ok(all)
}
