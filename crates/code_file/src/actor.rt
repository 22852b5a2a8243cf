//! The behaviour that runs the codes of a file.
ghost use Rattle.std.specs.Prelude.{◌≡◌, IfOk};

use crate::set::CodeSet;
use cell_grid::Behave;
use event_machine::{Machine, NoLedger, Steps};
use feast_base::NoMemory;
use std::alloc::Global;
use window_sites::Window;

/// The behaviour that runs the codes of a file: the code of the type of the atom at the centre. If
/// the centre is empty, or no element has the type of its atom, the window stays as it is. A run
/// that fails leaves the old window with an empty centre.
#[derive(Drop)]
pub struct CodeActor<'a> {
    set: &'a CodeSet,
    machine: Machine,
}

impl Behave for CodeActor<'_> {
    ghost use Rattle.code_file.specs.Acting.{after, idle-after};
    ghost use Rattle.code_file.specs.ActingSet.{acting_codes};

    ghost after = { λ a. after (acting_codes a) };

    ghost idle = { λ a. idle-after (acting_codes a) };

    fn act(&mut self, window: &mut Window, seed: u64) {
        let Some(index) = window.get(0).kind().checked_sub(1) else {
            return;
        };
        if let Some(code) = self.set.codes().get(index as usize) {
            self.machine
                .act(code, window, seed, &mut Steps::new(NoLedger));
        }
    }
}

impl CodeSet {
    ghost use Rattle.code_file.specs.ActingSet.{acting_codes};
    ghost use Rattle.code_file.specs.Form.{codes_of};

    /// The behaviour that runs these codes. It allocates all its memory here. `NoMemory` if that is
    /// not available.
    pub fn actor(&self, alloc: Global) -> Result<CodeActor<'_>, NoMemory>
        ensures { IfOk result (λ a. acting_codes a ≡ codes_of self.now) }
    {
        let machine = Machine::new(alloc)?;
        Ok(CodeActor { set: self, machine })
    }
}
