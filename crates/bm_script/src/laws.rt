//! The law of scripts.
ghost use Rattle.std.specs.Prelude.{IfOk};
ghost use Rattle.bm_script.specs.Placed.{IsPlacedText};
ghost use Rattle.bm_script.specs.Scripts.{script_of};

/// Of every text that is a script: after each `add`, `drain` and `weight` each bucket is, by the
/// plan's own table, at an active server of rack b modulo the racks, and each active server has its
/// quota of its rack's buckets, by the fewest moves.
pub fn placed(text: &[u8])
    ensures { IfOk (script_of text.now) (IsPlacedText text.now) }
{}
