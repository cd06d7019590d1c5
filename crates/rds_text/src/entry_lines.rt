ghost use Rattle.std.specs.Prelude.{◌≡◌, ◌++◌, ◌<◌, OnOk, string_bytes};
ghost use Rattle.rds_text.specs.Lines.{accept_line as line_of_accept, cancel_line as line_of_cancel, open_line as line_of_open, pull_line as line_of_pull, read_line as line_of_read, shut_line as line_of_shut};

use crate::entry_words::{FrameText, JournalName, OutcomeText, TargetText};
use crate::{Hex, HostName, Numbers, SlotName};
use rds_model::{Outcome, Target};
use rds_wire::{Frame, Memory};

fn journal_name(h: u8, k: u8) -> JournalName
    requires h { h < 26 }
    requires k { k < 26 }
    ensures h { result.host.host ≡ h }
    ensures k { result.peer.host ≡ k }
{
    JournalName {
        host: HostName::new(h),
        peer: HostName::new(k),
    }
}

/// The line of an `Accept`, which is number `n` of the journal that host `h` keeps of its connection with `k`.
///
/// # Errors
///
/// Where there is no memory for the line.
pub fn accept_line(
    text: &mut String,
    h: u8,
    k: u8,
    n: u64,
    slot: u16,
    sport: u16,
    dport: u16,
    payload: &[u8],
) -> Result<(), Memory>
    requires h { h < 26 }
    requires k { k < 26 }
    ensures { OnOk result (string_bytes text.new ≡ string_bytes text.old ++ line_of_accept h k n slot sport dport payload.now) }
{
    let journal = journal_name(h, k);
    let slot = SlotName(slot);
    let bytes = Hex(payload);
    writeln!(
        text,
        "{journal} accept n={n} slot={slot} {sport}>{dport} data={bytes}"
    )?;
    Ok(())
}

/// The line of a `Cancel`, with the numbers that were alive and are covered by it: those that were pulled before, and
/// the others.
///
/// # Errors
///
/// Where there is no memory for the line.
pub fn cancel_line(
    text: &mut String,
    h: u8,
    k: u8,
    slot: u16,
    target: Target,
    begun: &[u64],
    unbegun: &[u64],
) -> Result<(), Memory>
    requires h { h < 26 }
    requires k { k < 26 }
    ensures { OnOk result (string_bytes text.new ≡ string_bytes text.old ++ line_of_cancel h k slot target begun.now unbegun.now) }
{
    let journal = journal_name(h, k);
    let dport = TargetText(target);
    let begun = Numbers(begun);
    let unbegun = Numbers(unbegun);
    writeln!(
        text,
        "{journal} cancel slot={slot} dport={dport} begun={begun} unbegun={unbegun}"
    )?;
    Ok(())
}

/// The line of an `Open`.
///
/// # Errors
///
/// Where there is no memory for the line.
pub fn open_line(text: &mut String, h: u8, k: u8, stream: u32) -> Result<(), Memory>
    requires h { h < 26 }
    requires k { k < 26 }
    ensures { OnOk result (string_bytes text.new ≡ string_bytes text.old ++ line_of_open h k stream) }
{
    let journal = journal_name(h, k);
    writeln!(text, "{journal} open k={stream}")?;
    Ok(())
}

/// The line of a `Pull`.
///
/// # Errors
///
/// Where there is no memory for the line.
pub fn pull_line(text: &mut String, h: u8, k: u8, stream: u32, frame: &Frame) -> Result<(), Memory>
    requires h { h < 26 }
    requires k { k < 26 }
    ensures { OnOk result (string_bytes text.new ≡ string_bytes text.old ++ line_of_pull h k stream frame.now) }
{
    let journal = journal_name(h, k);
    let frame = FrameText(frame);
    writeln!(text, "{journal} pull k={stream} {frame}")?;
    Ok(())
}

/// The line of a `Read`.
///
/// # Errors
///
/// Where there is no memory for the line.
pub fn read_line(
    text: &mut String,
    h: u8,
    k: u8,
    stream: u32,
    frame: &Frame,
    outcome: Outcome,
) -> Result<(), Memory>
    requires h { h < 26 }
    requires k { k < 26 }
    ensures { OnOk result (string_bytes text.new ≡ string_bytes text.old ++ line_of_read h k stream frame.now outcome) }
{
    let journal = journal_name(h, k);
    let frame = FrameText(frame);
    let outcome = OutcomeText(outcome);
    writeln!(text, "{journal} read k={stream} {frame}{outcome}")?;
    Ok(())
}

/// The line of a `Shut`.
///
/// # Errors
///
/// Where there is no memory for the line.
pub fn shut_line(text: &mut String, h: u8, k: u8, stream: u32) -> Result<(), Memory>
    requires h { h < 26 }
    requires k { k < 26 }
    ensures { OnOk result (string_bytes text.new ≡ string_bytes text.old ++ line_of_shut h k stream) }
{
    let journal = journal_name(h, k);
    writeln!(text, "{journal} shut k={stream}")?;
    Ok(())
}
