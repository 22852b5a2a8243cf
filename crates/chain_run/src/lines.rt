//! Lines of a file that are lines of a report in it.
ghost use Rattle.std.specs.Prelude.{◌≡◌, ◌+◌, ◌<◌, ◌^◌};
ghost use Rattle.report_text.specs.Reading.{fault_of};
ghost use Rattle.chain_run.specs.Judging.{in_file};
ghost use Rattle.chain_run.specs.Lines.{HasNumber, HasNumbers, fault_in_file};
ghost use Rattle.chain_run.specs.Reading.{line_behind};

use report_judge::Judgement;
use report_text::JournalFault;

/// The line of a file for one that a fault names beside its own, before whose report so many lines come; 0
/// stands for no line.
fn other_in_file(before: u64, line: u64) -> u64
    requires { before + line < 2 ^ 64 }
    ensures { result ≡ line_behind before line }
{
    if line == 0 { 0 } else { before + line }
}

/// A fault of a report as one of the file, before whose lines so many others come.
pub(crate) fn fault_in_file(before: u64, fault: JournalFault) -> JournalFault
    requires { HasNumbers before (fault_of fault) }
    ensures { fault_of result ≡ fault_in_file before (fault_of fault) }
{
    match fault {
        JournalFault::BadLine(line) => JournalFault::BadLine(before + line),
        JournalFault::OutOfOrder(line, previous) => {
            JournalFault::OutOfOrder(before + line, other_in_file(before, previous))
        }
        JournalFault::NotOwned(line) => JournalFault::NotOwned(before + line),
        JournalFault::NotDrawn(line) => JournalFault::NotDrawn(before + line),
        JournalFault::NoMemory => JournalFault::NoMemory,
    }
}

/// A judgement on a report, in the lines of the file.
pub(crate) fn judgement_in_file(before: u64, judgement: Judgement) -> Judgement
    requires { HasNumber before judgement }
    ensures { result ≡ in_file before judgement }
{
    match judgement {
        Judgement::NoStamped(line) => Judgement::NoStamped(before + line),
        Judgement::NoExcused(line) => Judgement::NoExcused(before + line),
        Judgement::Yes => Judgement::Yes,
        Judgement::NoAccounted => Judgement::NoAccounted,
        Judgement::NoAtoms => Judgement::NoAtoms,
    }
}
