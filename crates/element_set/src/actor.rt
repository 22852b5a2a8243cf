//! What acts on windows as the elements of a set do.
ghost use Rattle.std.specs.Prelude.{◌≡◌, IfOk};

use crate::set::ElementSet;
use cell_grid::Behave;
use event_machine::{Machine, NoLedger, Steps};
use feast_base::NoMemory;
use std::alloc::Global;
use window_sites::Window;

/// What acts on windows as the elements of a set do: the element whose atom is at the centre acts.
/// An empty centre, and an atom whose type is that of no element, leave the window as it is.
#[derive(Drop)]
pub struct Actor<'a> {
    set: &'a ElementSet,
    machine: Machine,
}

impl Behave for Actor<'_> {
    ghost use Rattle.ulam_meaning.specs.Events.{after, idle-after};
    ghost use Rattle.element_set.specs.Acting.{acting_set};
    ghost use Rattle.element_set.specs.Sets.{program_of};

    ghost after = { λ a. after (program_of (acting_set a)) };

    ghost idle = { λ a. idle-after (program_of (acting_set a)) };

    fn act(&mut self, window: &mut Window, seed: u64) {
        let Some(index) = window.get(0).kind().checked_sub(1) else {
            return;
        };
        if let Some(code) = self.set.codes().get(index as usize) {
            self.machine
                .act(code, window, seed, &mut Steps::new(NoLedger));
        }
    }
}

impl ElementSet {
    ghost use Rattle.element_set.specs.Acting.{acting_set};
    ghost use Rattle.element_set.specs.Sets.{set_value};

    /// What acts on windows as the elements of this set do. All its memory is allocated here;
    /// `NoMemory` if that is refused.
    pub fn actor(&self, alloc: Global) -> Result<Actor<'_>, NoMemory>
        ensures { IfOk result (λ a. acting_set a ≡ set_value self.now) }
    {
        let machine = Machine::new(alloc)?;
        Ok(Actor { set: self, machine })
    }
}
