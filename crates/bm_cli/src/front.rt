//! The first octets of a file.
ghost use Rattle.std.specs.Prelude.{◌≡◌, ◌<◌, ◌≤◌, ◌∷◌, [], IfOk, OnOk, length, vec_len};
ghost use Rattle.bm_io.specs.Causes.{HasIoCause};
ghost use Rattle.bm_cli.specs.Inside.Fronts.{HasFront, IsFront};
ghost use Rattle.bm_cli.specs.Names.{AsksAll, AsksPrefix};
ghost use Rattle.bm_cli.specs.Statuses.{did};

use bm_io::{Files, IoFault, Source, fill};
use std::alloc::{AllocError, Global};

/// The most octets that are read at once.
const STEP: usize = 65_536;

/// The first octets of the file of this name, at most `most`. No other name is asked for.
pub(crate) fn read_front<F: Files>(
    alloc: Global,
    files: &mut F,
    name: &str,
    most: usize,
) -> Result<Vec<u8>, IoFault>
    requires room { F.open_now files.old < 4294967295 }
    ensures front { IfOk result (λ text. HasFront (F.octets files.old) name.now most text.items) }
    ensures few { IfOk result (λ text. vec_len text ≤ most) }
    ensures asked { AsksPrefix (F.open_now files.old)
        (did F.asked F.faults files.old files.new) (name.now ∷ []) }
    ensures all { OnOk result (AsksAll (F.open_now files.old)
        (did F.asked F.faults files.old files.new) (name.now ∷ [])) }
    ensures octets { F.octets files.new ≡ F.octets files.old }
    ensures cause { HasIoCause (F.faults files.old) (F.faults files.new) result }
    ensures open { F.open_now files.new ≡ F.open_now files.old }
{
    let mut src = files.open(name)?;
    let text = take_front(alloc, &mut src, most);
    files.close(src);
    text
}

/// The first octets of the source, at most `most`.
fn take_front<S: Source>(alloc: Global, src: &mut S, most: usize) -> Result<Vec<u8>, IoFault>
    ensures front { IfOk result (λ text. IsFront (S.left src.old) most text.items) }
    ensures few { IfOk result (λ text. vec_len text ≤ most) }
    ensures cause { HasIoCause (S.faults src.old) (S.faults src.new) result }
{
    let mut text = Vec::new(alloc);
    while text.len() < most {
        let mut piece = zeros(alloc, STEP.min(most - text.len()))?;
        let Ok(count) = fill(src, &mut piece) else {
            return Err(IoFault::Failed);
        };
        text.extend_from_slice(&piece[..count])?;
        if count < piece.len() {
            break;
        }
    }
    Ok(text)
}

fn zeros(alloc: Global, count: usize) -> Result<Vec<u8>, AllocError>
    ensures { IfOk result (λ zeros. vec_len zeros ≡ count) }
{
    Ok(vec![in alloc; 0; count]?)
}
