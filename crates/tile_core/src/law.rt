//! The laws of tiles that act in turn on the board of one thread, as the contract of a call that
//! does nothing.
ghost use Rattle.tile_core.specs.Boards.{NewBoardsFit, ActingEndsFit, OthersStay};

/// What a caller of `advance` knows of tiles whose ends act in turn on one board of the edges of
/// their plane.
///
/// On a board that was just made each tile that was just made is underway. A board of the plane's
/// edges is the end of the tile that it was turned to. Whatever one tile's end does there, each
/// other tile is underway as before, since its own edges' lists are as they were, and the board is
/// still one of the plane's edges. So every tile can make its next step at any time.
///
/// It does nothing.
pub fn on_one_board()
    ensures made { NewBoardsFit }
    ensures acting { ActingEndsFit }
    ensures others { OthersStay }
{}
