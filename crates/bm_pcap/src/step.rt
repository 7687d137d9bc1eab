//! What comes next in a capture.
ghost use Rattle.std.specs.Prelude.{◌≡◌, ◌≤◌, ◌<◌, length, if◌then◌else◌, IfOk, IfErr};
ghost use Rattle.std.specs.Prelude.{IsErrOf, Ok, Err};
ghost use Rattle.bm_pcap.specs.Causes.{HasStepCause, IsRecordFault};
ghost use Rattle.std.specs.Io.KnownBytes.{Keeps};
ghost use Rattle.bm_pcap.specs.Parts.{StepFits};
ghost use Rattle.bm_pcap.specs.Inside.Parts.{HeadGives, HeadFits, HeadIn, IsEarly, stated};
ghost use Rattle.bm_pcap.specs.Limits.{latest, widest};
ghost use Rattle.bm_pcap.specs.Reader.{FailsOpen, StepGives};
ghost use Rattle.bm_pcap.specs.Inside.Reader.{IsLast, own_octets};
ghost use Rattle.bm_pcap.specs.Records.{IsOpen, next_of, time_of};
ghost use Rattle.bm_pcap.specs.Window.{buffered, passed, rest, width};

use crate::CaptureFault;
use crate::form::Form;
use crate::place::{LONGEST, MOST_RECORDS, Place, RECORD_HEADER};
use crate::window::Window;
use bm_io::Source;

/// What comes next: a record, with its captured time and how many octets are its own.
#[derive(Clone, Copy, PartialEq, Eq)]
pub enum Step {
    Record { time: u64, len: u32 },
    Cut,
    End,
}

/// What a record's header says: a captured time and a length.
#[derive(Clone, Copy, PartialEq, Eq)]
pub enum Head {
    End,
    Cut,
    States { time: u64, len: u32 },
}

/// Reads what comes next at this place. A record's octets are the last that were taken.
pub(crate) fn read_step<S: Source>(
    window: &mut Window<S>,
    form: &Form,
    place: &Place,
) -> Result<Step, CaptureFault>
    requires { width window.old ≡ widest }
    ensures gives { StepGives (rest S.left window.old) (rest S.left window.new) form.now place.now
        result (own_octets result (passed window.new)) }
    ensures last { IfOk result (IsLast (passed window.new)) }
    ensures open { FailsOpen form.now place.now result (buffered window.new) }
    ensures fits { IfOk result (StepFits place.now) }
    ensures others { IfErr result IsRecordFault }
    ensures wide { width window.new ≡ widest }
    ensures cause { HasStepCause (S.faults window.old.src) (S.faults window.new.src) result }
{
    match read_head(window, form, place)? {
        Head::End => Ok(Step::End),
        Head::Cut => Ok(Step::Cut),
        Head::States { time, len } => {
            let whole = (RECORD_HEADER + len) as usize;
            let room = place.room as usize;
            let count = window.want(whole.min(room + 1))?;
            if count > room {
                return Err(CaptureFault::TooLarge);
            }
            if count < whole {
                return Ok(Step::Cut);
            }
            window.skip(whole);
            Ok(Step::Record { time, len })
        }
    }
}

/// Reads the header of a record at this place, and consumes none of its octets.
fn read_head<S: Source>(
    window: &mut Window<S>,
    form: &Form,
    place: &Place,
) -> Result<Head, CaptureFault>
    requires { width window.old ≡ widest }
    ensures gives { HeadGives (rest S.left window.old) form.now place.now result }
    ensures keeps { Keeps (rest S.left window.old) (rest S.left window.new) }
    ensures buffered { IfOk result (HeadIn form.now (buffered window.new)) }
    ensures open { IsErrOf result CaptureFault.ReadFault
        → IsOpen (next_of form.now place.now (buffered window.new)) }
    ensures fits { IfOk result (HeadFits place.now) }
    ensures others { IfErr result IsRecordFault }
    ensures wide { width window.new ≡ widest }
    ensures cause { HasStepCause (S.faults window.old.src) (S.faults window.new.src) result }
{
    if place.number > MOST_RECORDS {
        return read_end(window, form, place);
    }
    let room = place.room as usize;
    let header = RECORD_HEADER as usize;
    let count = window.want((room + 1).min(header))?;
    if count == 0 {
        return Ok(Head::End);
    }
    if count < header {
        return if count > room {
            Err(CaptureFault::TooLarge)
        } else {
            Ok(Head::Cut)
        };
    }
    states(form, place, &window.buffered()[..header])
}

/// Looks for an octet after the last record that is allowed.
fn read_end<S: Source>(
    window: &mut Window<S>,
    form: &Form,
    place: &Place,
) -> Result<Head, CaptureFault>
    requires wide { width window.old ≡ widest }
    requires last { MOST_RECORDS < place.now.number }
    ensures gives { HeadGives (rest S.left window.old) form.now place.now result }
    ensures keeps { Keeps (rest S.left window.old) (rest S.left window.new) }
    ensures buffered { IfOk result (HeadIn form.now (buffered window.new)) }
    ensures open { IsErrOf result CaptureFault.ReadFault
        → IsOpen (next_of form.now place.now (buffered window.new)) }
    ensures fits { IfOk result (HeadFits place.now) }
    ensures others { IfErr result IsRecordFault }
    ensures wide { width window.new ≡ widest }
    ensures cause { HasStepCause (S.faults window.old.src) (S.faults window.new.src) result }
{
    if window.want(1)? > 0 {
        return Err(CaptureFault::TooManyPackets);
    }
    Ok(Head::End)
}

/// What a whole header of a record states.
fn states(form: &Form, place: &Place, header: &[u8]) -> Result<Head, CaptureFault>
    requires { length header.now ≡ 16 }
    ensures stated { result ≡ stated form.now place.now header.now }
    ensures early { IfOk result IsEarly }
{
    let len = form.order.read_u32(header, 8);
    if len > LONGEST {
        return Err(CaptureFault::BadLength(place.number, len));
    }
    if place.room < RECORD_HEADER {
        return Err(CaptureFault::TooLarge);
    }
    Ok(Head::States {
        time: time(form, header),
        len,
    })
}

/// The captured time that a record's header states.
fn time(form: &Form, header: &[u8]) -> u64
    requires { length header.now ≡ 16 }
    ensures time { result ≡ time_of form.now header.now }
    ensures early { result ≤ latest }
{
    let seconds = u64::from(form.order.read_u32(header, 0));
    let fraction = u64::from(form.order.read_u32(header, 4));
    seconds * 1_000_000_000 + fraction * form.unit.nanoseconds()
}
