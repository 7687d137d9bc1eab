//! Writing a whole piece.
ghost use Rattle.std.specs.Prelude.{OnOk, OnErr};
ghost use Rattle.std.specs.Io.KnownBytes.{Appends};
ghost use Rattle.bm_io.specs.Causes.{HasIoCause};
ghost use Rattle.bm_io.specs.Written.{WritesPart};

use crate::{IoFault, Sink};

/// Appends the whole piece. On an error only a first part of it was appended, not all.
pub fn put_all<K: Sink>(out: &mut K, piece: &[u8]) -> Result<(), IoFault>
    ensures ok { OnOk result (Appends (K.written out.old) (K.written out.new) piece.now) }
    ensures err { OnErr result
        (WritesPart (K.written out.old) (K.written out.new) piece.now) }
    ensures cause { HasIoCause (K.faults out.old) (K.faults out.new) result }
{
    let mut at = 0;
    while at < piece.len() {
        at += out.put(&piece[at..])?;
    }
    Ok(())
}
