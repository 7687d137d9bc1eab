//! Filling a buffer.
ghost use Rattle.std.specs.Prelude.{◌≤◌, length, IfOk};
ghost use Rattle.bm_io.specs.Causes.{HasCause};
ghost use Rattle.bm_io.specs.Fill.{Fills};

use crate::{Failed, Source};

/// Fills the buffer as far as the source's octets go, and returns how many there were. After a
/// failure it isn't specified how many were taken.
pub fn fill<S: Source>(src: &mut S, buf: &mut [u8]) -> Result<usize, Failed>
    ensures bound { IfOk result (λ n. n ≤ length buf.new) }
    ensures octets { IfOk result (λ n. Fills (S.left src.old) (S.left src.new) n buf.new) }
    ensures cause { HasCause (S.faults src.old) (S.faults src.new) result }
{
    let mut at = 0;
    while at < buf.len() {
        let count = src.take(&mut buf[at..])?;
        if count == 0 {
            break;
        }
        at += count;
    }
    Ok(at)
}
