//! The judgement on a report, and its line.
ghost use Rattle.std.specs.Prelude.{◌≡◌, IfOk};
ghost use Rattle.report_judge.specs.Judging.{judgement_text};

use feast_base::NoMemory;
use std::alloc::Global;
use text_lines::{Field, push_line};

/// The verdict on a report.
#[derive(Clone, Copy)]
pub enum Judgement {
    /// Each attempt is accounted for, each event has its stamp, each abandoned attempt is excused,
    /// and the bytes are those of the report of its own events and abandoned attempts.
    Yes,
    /// Some attempt is not accounted for.
    NoAccounted,
    /// The event on this line is the first whose stamp is not the one that its links give.
    NoStamped(u64),
    /// The abandoned attempt on this line is the first that is not excused.
    NoExcused(u64),
    /// The three hold, but the report has other atoms than the events make of the start.
    NoAtoms,
}

/// The line of a judgement, with its LF. `NoMemory` if there is none for it.
pub fn judgement_line(alloc: Global, judgement: Judgement) -> Result<Vec<u8>, NoMemory>
    ensures { IfOk result (λ v. v.items ≡ judgement_text judgement) }
{
    let mut line = Vec::new(alloc);
    let no = Field::Word(b"no");
    match judgement {
        Judgement::Yes => push_line(&mut line, &[Field::Word(b"yes")])?,
        Judgement::NoAccounted => push_line(&mut line, &[no, Field::Word(b"accounted")])?,
        Judgement::NoStamped(at) => {
            push_line(&mut line, &[no, Field::Word(b"stamped"), Field::Number(at)])?;
        }
        Judgement::NoExcused(at) => {
            push_line(&mut line, &[no, Field::Word(b"excused"), Field::Number(at)])?;
        }
        Judgement::NoAtoms => push_line(&mut line, &[no, Field::Word(b"atoms")])?,
    }
    Ok(line)
}
