//! A law on films.
ghost use Rattle.event_film.specs.Films.{UndoesAll};

/// Whatever events are made on a grid and then undone, the last of them first, the grid is what it
/// was. The call does nothing: its contract is the law.
pub fn films()
    ensures { UndoesAll }
{}
