//! Writing texts one after another.
ghost use Rattle.std.specs.Prelude.{flat_map, OnErr, OnOk};
ghost use Rattle.std.specs.Io.KnownBytes.{Appends};
ghost use Rattle.bm_io.specs.Causes.{HasIoCause};
ghost use Rattle.bm_io.specs.Written.{WritesPart};

use bm_base::Text;
use bm_io::{IoFault, Sink, put_all};

/// Appends the texts. On an error only a first part of them was appended, not all.
pub(crate) fn put_parts<K: Sink>(out: &mut K, parts: &[Text]) -> Result<(), IoFault>
    ensures ok { OnOk result (Appends (K.written out.old) (K.written out.new)
        (flat_map (λ part. part) parts.now)) }
    ensures err { OnErr result (WritesPart (K.written out.old) (K.written out.new)
        (flat_map (λ part. part) parts.now)) }
    ensures cause { HasIoCause (K.faults out.old) (K.faults out.new) result }
{
    for part in parts {
        put_all(out, part.as_str().as_bytes())?;
    }
    Ok(())
}
