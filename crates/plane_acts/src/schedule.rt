//! Which acts are done before which leg.

ghost use Rattle.std.specs.Prelude.{◌≡◌, ◌≤◌, All, filter, map};
ghost use Rattle.std.specs.List.Sorted.{IsNonDecreasingBy};
ghost use Rattle.cell_grid.specs.Grid.{ArePlanesAlike};
ghost use Rattle.plane_acts.specs.Acts.{IsActOn};
ghost use Rattle.plane_acts.specs.Schedules.{AreActsOn, acts, is_due, is_of};
ghost use Rattle.plane_acts.specs.Steps.{AreDone};

use crate::act::Act;
use crate::words::ActWords;
use cell_grid::Grid;
use std::marker::Model;

/// An act that is done before each leg whose number the period divides.
#[derive(Clone, Copy)]
pub struct Every {
    /// The period, from 1.
    pub period: u32,
    /// What is done.
    pub act: Act,
}

/// An act that is done before one leg.
#[derive(Clone, Copy)]
pub struct Once {
    /// The number of the leg.
    pub leg: u32,
    /// What is done.
    pub act: Act,
}

/// The acts of a chain. Contracts see both lists.
#[derive(Drop)]
pub struct Schedule {
    every: Vec<Every>,
    once: Vec<Once>,
}

impl Model for Schedule {
    ghost use Rattle.plane_acts.specs.Schedules.{ScheduleValue, IsSchedule};

    ghost Value = { ScheduleValue };

    ghost view = { λ s. record { every = s.every.items; once = s.once.items } };

    ghost invariant = { λ s. IsSchedule (record { every = s.every.items; once = s.once.items }) };
}

impl Schedule {
    /// The schedule of these acts. Periods are from 1, and the acts that are done once stand in the
    /// order of their legs.
    pub fn new(every: Vec<Every>, once: Vec<Once>) -> Schedule
        requires periods { All (λ e. 1 ≤ e.period) every.items }
        requires ordered { IsNonDecreasingBy (λ o. o.leg) once.items }
        ensures { result ≡ record { every = every.items; once = once.items } }
    {
        Schedule { every, once }
    }

    /// The acts that are done again and again, in their order.
    pub fn every(&self) -> &[Every]
        ensures { result.now ≡ self.now.every }
    {
        self.every.as_slice()
    }

    /// The acts that are done once, in their order.
    pub fn once(&self) -> &[Once]
        ensures { result.now ≡ self.now.once }
    {
        self.once.as_slice()
    }

    /// The acts that are done once before a leg, in their order. They are found by halving, in a
    /// time that grows with the logarithm of the number of all such acts.
    pub fn once_of(&self, leg: u32) -> &[Once]
        ensures { result.now ≡ filter (is_of leg) self.now.once }
    {
        let once = self.once.as_slice();
        let earlier = once.partition_point(|o| o.leg < leg);
        let rest = &once[earlier..];
        let count = rest.partition_point(|o| o.leg <= leg);
        &rest[..count]
    }

    /// Does what is due before a leg: the acts whose period divides its number, and then those of
    /// this leg alone, each list in its order. All of them take their words one after another from
    /// the stream of the seed. The areas of all acts lie in the plane. No memory is taken.
    pub fn act_before(&self, leg: u32, seed: u64, grid: &mut Grid)
        requires { AreActsOn grid.old.width grid.old.height self.now }
        ensures grid { grid.new ≡ acts self.now leg seed grid.old }
        ensures plane { ArePlanesAlike grid.old grid.new }
    {
        let mut words = ActWords::new(seed);
        act_again(self.every.as_slice(), leg, &mut words, grid);
        act_each(self.once_of(leg), &mut words, grid);
    }
}

/// Does those of these acts whose period divides the number of a leg.
fn act_again(every: &[Every], leg: u32, words: &mut ActWords, grid: &mut Grid)
    requires periods { All (λ e. 1 ≤ e.period) every.now }
    requires areas { All (λ e. IsActOn grid.old.width grid.old.height e.act) every.now }
    ensures acts { AreDone (map (λ e. e.act) (filter (is_due leg) every.now)) words.old grid.old words.new grid.new }
    ensures plane { ArePlanesAlike grid.old grid.new }
{
    for entry in every {
        if leg % entry.period == 0 {
            entry.act.act_on(words, grid);
        }
    }
}

/// Does these acts.
fn act_each(once: &[Once], words: &mut ActWords, grid: &mut Grid)
    requires { All (λ o. IsActOn grid.old.width grid.old.height o.act) once.now }
    ensures acts { AreDone (map (λ o. o.act) once.now) words.old grid.old words.new grid.new }
    ensures plane { ArePlanesAlike grid.old grid.new }
{
    for entry in once {
        entry.act.act_on(words, grid);
    }
}
