//! The judgement on the report of a chain, and its line.
ghost use Rattle.std.specs.Prelude.{◌≡◌, ◌∷◌, IfOk, codes, decimal};
ghost use Rattle.feast_base.specs.Appending.{Appends};
ghost use Rattle.text_lines.specs.Lines.{ended_line};
ghost use Rattle.chain_run.specs.Judging.{chain_judgement_text, fault_fields};

use feast_base::NoMemory;
use report_judge::Judgement;
use std::alloc::Global;
use text_lines::{Field, push_line};

/// The verdict on the report of a chain.
#[derive(Clone, Copy)]
pub enum ChainJudgement {
    /// Each leg's report is what `yes` says of a world's.
    Yes,
    /// The leg of this number is the first whose report is not, and why. Lines are those of the file.
    No(u32, Judgement),
}

/// Appends the line of a leg's judgement that is not yes, with its LF. Without a word for yes.
fn push_fault(line: &mut Vec<u8>, leg: u32, judgement: Judgement) -> Result<(), NoMemory>
    ensures { Appends line.old.items line.new.items result (ended_line (codes "no" ∷ codes "leg" ∷ decimal leg ∷ fault_fields judgement)) }
{
    let no = Field::Word(b"no");
    let word = Field::Word(b"leg");
    let number = Field::Number(u64::from(leg));
    match judgement {
        Judgement::Yes => push_line(line, &[no, word, number]),
        Judgement::NoAccounted => push_line(line, &[no, word, number, Field::Word(b"accounted")]),
        Judgement::NoStamped(at) => {
            let fault = Field::Word(b"stamped");
            push_line(line, &[no, word, number, fault, Field::Number(at)])
        }
        Judgement::NoExcused(at) => {
            let fault = Field::Word(b"excused");
            push_line(line, &[no, word, number, fault, Field::Number(at)])
        }
        Judgement::NoAtoms => push_line(line, &[no, word, number, Field::Word(b"atoms")]),
    }
}

/// The line of a judgement, with its LF. `NoMemory` if there is none for it.
pub fn chain_judgement_line(alloc: Global, judgement: ChainJudgement) -> Result<Vec<u8>, NoMemory>
    ensures { IfOk result (λ v. v.items ≡ chain_judgement_text judgement) }
{
    let mut line = Vec::new(alloc);
    match judgement {
        ChainJudgement::Yes => push_line(&mut line, &[Field::Word(b"yes")])?,
        ChainJudgement::No(leg, fault) => push_fault(&mut line, leg, fault)?,
    }
    Ok(line)
}
