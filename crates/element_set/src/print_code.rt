//! The text that shows the codes of a set.
ghost use Rattle.std.specs.Prelude.{◌≡◌, ◌++◌, OnOk, OnErr};
ghost use Rattle.feast_base.specs.Appending.{Appends};
ghost use Rattle.element_set.specs.CodeText.{codes_text};
ghost use Rattle.element_set.specs.Sets.{code_text, set_value};

use crate::lengths::codes_len;
use crate::set::ElementSet;
use feast_base::{Name, NoMemory};
use stack_code::{Code, print};

/// Appends codes, each under its name.
fn push_codes(out: &mut Vec<u8>, names: &[Name], codes: &[Code]) -> Result<(), NoMemory>
    ensures { Appends out.old.items out.new.items result (codes_text names.now codes.now) }
{
    for (name, code) in names.iter().zip(codes) {
        print(code, name, out)?;
    }
    Ok(())
}

impl ElementSet {
    /// Appends the text that shows the codes: for each element in order a line with its number and
    /// the length of its code, and for each function a line and its instructions. Memory is taken
    /// once, for the counted length of the text; `NoMemory` if there is none for it, or for counting.
    /// `out` then has what it had.
    pub fn print_code(&self, out: &mut Vec<u8>) -> Result<(), NoMemory>
        ensures ok { OnOk result (out.new.items ≡ out.old.items ++ code_text (set_value self.now)) }
        ensures err { OnErr result (out.new.items ≡ out.old.items) }
    {
        let before = out.len();
        let names = self.names.as_slice();
        let codes = self.codes.as_slice();
        let len = codes_len(*out.allocator(), names, codes)?;
        out.reserve_exact(len)?;
        let pushed = push_codes(out, names, codes);
        if pushed.is_err() {
            out.truncate(before);
        }
        pushed
    }
}
