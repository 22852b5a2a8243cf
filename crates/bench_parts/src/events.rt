//! A bench of events: for some ways to fill a grid and to choose centres, the events of one million
//! attempts.

ghost use Rattle.std.specs.Prelude.{◌≤◌};

use crate::act::Turn;
use bit_field::Atom;
use cell_grid::Grid;
use draw_stream::{Attempt, TileStream};
use feast_base::NoMemory;
use std::alloc::Global;
use std::io;
use std::rt::Clock;
use std::time::Instant;
use window_sites::Window;

/// The number of columns and of rows of the grid.
const SIDE: u32 = 64;

/// The number of events.
const EVENTS: u32 = 1_000_000;

/// The number of events that are timed together.
const PART: usize = 20_000;

/// A grid in which one site in `every` has an atom.
fn grid_with_atoms(alloc: Global, every: u32) -> Result<Grid, NoMemory>
    requires { 1 ≤ every }
{
    let mut grid = Grid::new(alloc, SIDE, SIDE)?;
    for place in 0..SIDE * SIDE {
        let (x, y) = (place % SIDE, place / SIDE);
        if place % every == 0 && x < grid.width() && y < grid.height() && grid.is_live(x, y) {
            grid.set(x, y, Atom::new(1, 0));
        }
    }
    Ok(grid)
}

/// The attempts. Their centres lie in a square of `side` columns and rows.
fn draw_attempts(alloc: Global, side: u32) -> Result<Vec<Attempt>, NoMemory>
    requires some { 1 ≤ side }
    requires most { side ≤ 64 }
{
    let mut stream = TileStream::new(1, 0);
    let mut attempts = Vec::new(alloc);
    for _ in 0..EVENTS {
        if attempts
            .push(stream.attempt(u64::from(side * side)))
            .is_err()
        {
            return Err(NoMemory);
        }
    }
    Ok(attempts)
}

/// Makes the events of the attempts. Their square lies in the middle of the grid.
fn make(grid: &mut Grid, attempts: &[Attempt], side: u32)
    requires some { 1 ≤ side }
    requires most { side ≤ 64 }
{
    let margin = (SIDE - side) / 2;
    let mut window = Window::empty();
    for attempt in attempts {
        let x = attempt.centre % side + margin;
        let y = (attempt.centre / side).saturating_add(margin);
        if x < grid.width() && y < grid.height() && grid.is_live(x, y) {
            grid.event_in(x, y, attempt.seed, &mut Turn, &mut window);
        }
    }
}

/// The sum of the indices of the occupied sites.
fn places(grid: &Grid) -> u64 {
    let empty = Atom::new(0, 0);
    let mut sum = 0u64;
    for (place, atom) in grid.atoms().iter().enumerate() {
        if *atom != empty {
            sum = sum.wrapping_add(place as u64);
        }
    }
    sum
}

/// The shortest time per event over all parts, in picoseconds.
fn picoseconds(
    clock: &impl Clock,
    grid: &mut Grid,
    attempts: &[Attempt],
    side: u32,
) -> io::Result<u128>
    requires some { 1 ≤ side }
    requires most { side ≤ 64 }
{
    let mut least = u128::MAX;
    for part in attempts.chunks(PART) {
        let begin = Instant::now(clock)?;
        make(grid, part, side);
        least = least.min(begin.elapsed(clock)?.as_nanos());
    }
    Ok(least / (PART as u128 / 1000))
}

/// Makes the events of one million attempts on a grid in which one site in `every` has an atom, with
/// centres in a square of `side` columns and rows, and times them if asked to.
fn measure(rt: &HostRuntime, every: u32, side: u32, timed: bool) -> io::Result<()>
    requires atoms { 1 ≤ every }
    requires some { 1 ≤ side }
    requires most { side ≤ 64 }
{
    let room = io::ErrorKind::OutOfMemory;
    let Ok(attempts) = draw_attempts(rt.alloc(), side) else {
        return Err(room.into());
    };
    let Ok(mut grid) = grid_with_atoms(rt.alloc(), every) else {
        return Err(room.into());
    };
    make(&mut grid, attempts.as_slice(), side);
    println!(*rt;
        "one site in {every}, centres in {side} by {side}: {}",
        places(&grid)
    )?;
    if timed {
        let time = picoseconds(rt, &mut grid, attempts.as_slice(), side)?;
        println!(*rt; "{time} picoseconds an event")?;
    }
    Ok(())
}

/// Makes the events once, to be counted, and times them too if asked to.
pub fn run(rt: &HostRuntime, timed: bool) -> io::Result<()> {
    measure(rt, 1, 56, timed)?;
    measure(rt, 1, 64, timed)?;
    measure(rt, 20, 56, timed)?;
    measure(rt, 20, 64, timed)
}
