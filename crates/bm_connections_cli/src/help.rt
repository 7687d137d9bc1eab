//! What the program says of itself.
ghost use Rattle.std.specs.Prelude.{◌≡◌, IfOk, string_bytes};
ghost use Rattle.bm_cli.specs.Dues.{Misused, Shown};
ghost use Rattle.bm_cli.specs.Statuses.{did};
ghost use Rattle.bm_cli.specs.Telling.{Tells};
ghost use Rattle.bm_connections_cli.specs.Help as spec;
ghost use Rattle.bm_connections_cli.specs.Inside.Ends.{no_lines};

use bm_cli::{Status, say};
use bm_io::Sink;
use std::alloc::{AllocError, Global};

const USAGE: &str =
    "usage: beamer-connections CAPTURE SCRIPT [--csv | --json | --svg] [--clock] [--fail] | CAPTURE SCRIPT --of CLIENT [SERVICE] [--clock] [--fail] | --lifetime SCRIPT [--for SECONDS] | --help | --version\n";

const VERSION: &str = "beamer-connections 1.0\n";

/// What each option does.
#[tactic(auto, unfolding(crate::specs::Help::options_text))]
fn options_text() -> &'static str
    ensures { result.now ≡ spec.options_text }
{
    "  --csv, --json, --svg  the connections as fields, as objects, or drawn
  --clock               moments in UTC
  --fail                status 10 where the changes break or refuse a connection
  --of CLIENT           the events of the client's connections, in order
  --lifetime            how long connections may live so that no change breaks them
docs/FORMATS.md has the lines, docs/OPERATING.md what to do about them.
"
}

fn help_text(alloc: Global) -> Result<String, AllocError>
    ensures { IfOk result (λ text. string_bytes text ≡ spec.help_text) }
{
    let options = options_text();
    format!(in alloc; "{USAGE}{options}")
}

/// Writes the usage line.
pub(crate) fn misuse<E: Sink>(faults: &mut E) -> Status
    ensures { Tells no_lines (Misused spec.usage_line)
        (did E.written E.faults faults.old faults.new) result }
{
    say(faults, USAGE.as_bytes(), Status::Usage)
}

/// Writes the usage line, and what each option does.
pub(crate) fn help<K: Sink>(alloc: Global, out: &mut K) -> Status
    ensures { Tells no_lines (Shown (λ shown. shown ≡ spec.help_text))
        (did K.written K.faults out.old out.new) result }
{
    let Ok(text) = help_text(alloc) else {
        return Status::Memory;
    };
    say(out, text.as_bytes(), Status::Done)
}

/// Writes the program's name and version.
pub(crate) fn version<K: Sink>(out: &mut K) -> Status
    ensures { Tells no_lines (Shown (λ shown. shown ≡ spec.version_line))
        (did K.written K.faults out.old out.new) result }
{
    say(out, VERSION.as_bytes(), Status::Done)
}
