//! The line of a load.
ghost use Rattle.std.specs.Prelude.{◌≡◌, IfOk, string_bytes};
ghost use Rattle.bm_load.specs.Loaded.{summary};

use bm_base::Memory;
use bm_trace::Totals;
use std::alloc::Global;

/// The line of a load of n connections whose history has these totals.
pub fn summary(alloc: Global, n: u32, totals: &Totals) -> Result<String, Memory>
    ensures { IfOk result (λ line. string_bytes line ≡ summary n totals.now) }
{
    let line = format!(in alloc;
        "load {n} packets {} accepted {} processed {} reset {} dropped {} lost {}\n",
        totals.packets, totals.accepted, totals.processed, totals.reset, totals.dropped, totals.lost
    )?;
    Ok(line)
}
