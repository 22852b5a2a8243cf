//! The rewind of a chain's report.
ghost use Rattle.std.specs.Prelude.{◌≡◌, ◌≤◌, ◌<◌, ◌^◌, IfOk, List, length, ℕ};
ghost use Rattle.cell_grid.specs.Known.{BringsNone};
ghost use Rattle.chain_text.specs.Chain.{IsChain};
ghost use Rattle.chain_text.specs.Values.{chain_value};
ghost use Rattle.chain_run.specs.Answers.{AreNamedIfAtoms, RewindsLegs};
ghost use Rattle.chain_run.specs.Chains.{making};
ghost use Rattle.chain_run.specs.Places.{IsMeant, IsPlace, place_past};

use crate::leg_read::LegRead;
use crate::reports::{LegReports, read_all};
use crate::starting::first_grid;
use cell_grid::{Behave, Grid};
use chain_text::Chain;
use feast_base::{Name, NoMemory};
use report_text::JournalFault;
use std::alloc::Global;

/// What a rewind comes to.
pub enum Rewound {
    /// The grid after the events that remain.
    Atoms(Grid),
    /// There are fewer events than are to remain: so many.
    TooFew(u64),
}

/// How far a rewind has come.
#[derive(Drop)]
struct Place {
    /// The grid that the legs so far leave.
    grid: Grid,
    /// How many events of the legs behind them remain.
    left: u64,
}

impl Place {
    /// The place behind the next leg, of whose events some remain. `NoMemory` if there is none for the
    /// rewind of the leg.
    fn past<B: Behave>(
        self,
        alloc: Global,
        leg: &LegRead<'_>,
        behave: &mut B,
    ) -> Result<Place, NoMemory>
        requires some { 1 ≤ self.left }
        requires place { (names : List (List ℕ)) × IsPlace names leg.now.chain (B.after behave.old) self }
        ensures past { IfOk result (λ p. p ≡ place_past (making leg.now.chain (B.after behave.old)) leg.now.number leg.now.entries.records self) }
        ensures place { IfOk result (λ p. (names : List (List ℕ)) → IsPlace names leg.now.chain (B.after behave.old) self → IsPlace names leg.now.chain (B.after behave.new) p) }
        ensures meaning { IfOk result (IsMeant (B.after behave.old) (B.after behave.new)) }
    {
        let events = leg.events();
        if self.left < events {
            let grid = leg.rewind(alloc, self.grid, self.left, behave)?;
            return Ok(Place { grid, left: 0 });
        }
        let mut grid = self.grid;
        leg.replay(&mut grid, behave);
        Ok(Place {
            grid,
            left: self.left - events,
        })
    }
}

/// The grid after the first `left` events of a chain's report: the legs before the one that has the last
/// of them are replayed; of that leg all events are made and those behind it undone, the last one first;
/// later legs are not made, nor are their acts. For 0 it is the grid of the chain's atoms. All bytes are
/// read first: the answer to bytes that can't be read is their first fault, as for `audit_legs`, and if
/// there are fewer events, no leg is made. `NoMemory` if there is none for a leg.
pub fn rewind_legs<B: Behave>(
    alloc: Global,
    chain: &Chain,
    names: &[Name],
    bytes: &[u8],
    left: u64,
    behave: &mut B,
) -> Result<Rewound, JournalFault>
    requires chain { IsChain names.now (chain_value chain.now) }
    requires brings { BringsNone (length names.now) (B.after behave.old) }
    requires short { length bytes.now < 2 ^ 63 }
    ensures rewinds { RewindsLegs (chain_value chain.now) (B.after behave.old) bytes.now left result }
    ensures named { IfOk result (AreNamedIfAtoms names.now) }
{
    let events = read_all(alloc, chain, bytes)?;
    if events < left {
        return Ok(Rewound::TooFew(events));
    }
    let grid = first_grid(alloc, chain, names)?;
    let mut place = Place { grid, left };
    let mut reports = LegReports::new(chain, bytes)?;
    while let Some(leg) = reports.next(alloc)? {
        if place.left == 0 {
            return Ok(Rewound::Atoms(place.grid));
        }
        place = place.past(alloc, &leg, behave)?;
    }
    Ok(Rewound::Atoms(place.grid))
}
