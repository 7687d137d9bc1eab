//! The stage: the script and the capture that the words name.
ghost use Rattle.std.specs.Prelude.{◌≡◌, ◌<◌, ◌≤◌, ◌∷◌, ◌++◌, [], IfOk, IsSome, OnOk};
ghost use Rattle.std.specs.Result.{result_map_both};
ghost use Rattle.bm_core.specs.Stages.{IsSound};
ghost use Rattle.bm_link.specs.Fits.{ArePackets};
ghost use Rattle.bm_pcap.specs.Limits.{latest};
ghost use Rattle.bm_words.specs.Form.{named};
ghost use Rattle.bm_cli.specs.Names.{AsksAll, script_names};
ghost use Rattle.bm_cli.specs.Stages.{ReadsStage};
ghost use Rattle.bm_cli.specs.Reading.{Holds, verbs_for};
ghost use Rattle.bm_cli.specs.Statuses.{did};
ghost use Rattle.bm_cli.specs.Streams.{packets_in};

use crate::fault::StageFault;
use crate::mode::Mode;
use crate::reading::read_file;
use crate::script::read_script_file;
use crate::seats::check_seats;
use bm_base::{List, Octets};
use bm_core::Stage;
use bm_io::Files;
use bm_script::ChangeVerb;
use bm_words::Names;
use std::alloc::Global;

/// The stage that words name, with what is read beside it.
#[derive(Drop)]
pub struct NamedStage {
    pub stage: Stage,
    /// The packet of each record.
    pub packets: Octets,
    /// When the capture began, in nanoseconds since 1970.
    pub began: u64,
    /// What the script's commands say that they change.
    pub verbs: List<ChangeVerb>,
}

/// Reads the script, and then the capture, whose packets go to the script's services. Only the
/// names in the words are asked for, and the capture only after a script that has no fault and may
/// be played in this mode.
pub fn read_stage<F: Files>(
    alloc: Global,
    files: &mut F,
    mode: Mode,
    names: Names<'_>,
) -> Result<NamedStage, StageFault>
    requires script { mode ≡ Mode.Run → IsSome (named names).script }
    requires room { F.open_now files.old < 4294967295 }
    ensures stage { Holds (F.octets files.old) (λ reads.
        ReadsStage mode (named names.entry) reads (did F.asked F.faults files.old files.new)
        (result_map_both (λ read. read.stage) (λ fault. fault) result)
        × IfOk result (λ read. (read.began ≡ reads.began (named names.entry).capture)
        × (read.verbs ≡ verbs_for reads (named names.entry).script))) }
    ensures capture { Holds (F.octets files.old) (λ reads.
        ReadsStage mode (named names.entry) reads (did F.asked F.faults files.old files.new)
        (result_map_both (λ read. read.stage) (λ fault. fault) result)
        × IfOk result (λ read. read.packets ≡ packets_in mode (named names.entry) reads)) }
    ensures all { OnOk result (AsksAll (F.open_now files.old)
        (did F.asked F.faults files.old files.new)
        (script_names (named names.entry).script ++ (named names.entry).capture ∷ [])) }
    ensures early { IfOk result (λ read. read.began ≤ latest) }
    ensures sound { IfOk result (λ read. IsSound read.stage) }
    ensures packets { IfOk result (λ read. ArePackets read.stage.capture.records read.packets) }
    ensures octets { F.octets files.new ≡ F.octets files.old }
    ensures open { F.open_now files.new ≡ F.open_now files.old }
{
    let worded = read_script_file(alloc, files, names.script)?;
    check_seats(mode, &worded.script)?;
    let (capture, packets, began) = read_file(
        alloc,
        files,
        names.capture,
        worded.script.setting.vips.items(),
    )?;
    Ok(NamedStage {
        stage: Stage {
            script: worded.script,
            capture,
        },
        packets,
        began,
        verbs: worded.verbs,
    })
}
