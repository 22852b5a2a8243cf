//! The cells and news bits of one edge, through a board.
ghost use Rattle.std.specs.Prelude.{◌≡◌, ◌+◌, ◌*◌, ◌<◌, ◌≤◌, ◌^◌, length};
ghost use Rattle.edge_lock.specs.Edges.{registers_of, news_words, news_register};
ghost use Rattle.edge_lock.specs.EndValues.{SameEnd};
ghost use Rattle.border_cache.specs.Accesses.{AddsSome};
ghost use Rattle.border_cache.specs.Borders.{IsOpen};
ghost use Rattle.border_cache.specs.News.{bit_in, AreNewsRead, IsSiteRead, IsWordRead};
ghost use Rattle.border_cache.specs.Published.{AreBitsPut, AreWordsPut, IsCellPut, IsWordPut};
ghost use Rattle.tile_map.specs.declared.limits.TheConstants.{MOST_SHARED};

use crate::border::{Border, News};
use crate::cell::Cell;
use crate::masks::with_mask;
use edge_lock::Board;

/// The register of a news word of an end.
fn news_word(border: Border, word: u32) -> u32
    requires few { border.sites ≤ MOST_SHARED }
    requires end { border.end < 2 }
    requires word { word < news_words border.sites }
    ensures value { result ≡ news_register border.sites border.end word }
    ensures inside { result < registers_of border.sites }
{
    let words = (border.sites + 63) / 64;
    let first = 1 + 2 * border.sites + if border.end == 0 { 0 } else { words };
    first + word
}

/// Reads a news word of an end, unless a mask has no bits: those of its bits that the mask has.
fn read_word<D: Board>(board: &mut D, border: Border, word: u32, mask: u64) -> u64
    requires word { word < news_words border.sites }
    requires hold { IsOpen (D.end board.old) border }
    ensures read { AddsSome border.edge (IsWordRead (news_register border.sites border.end word) mask result) (D.end board.old) (D.end board.new) }
    ensures same { SameEnd (D.end board.old) (D.end board.new) }
    ensures moved { D.moved board.old board.new }
{
    if mask == 0 {
        return 0;
    }
    board.read(border.edge, news_word(border, word)) & mask
}

/// Reads which of the places of these masks are news for the end.
pub(crate) fn read_news<D: Board>(board: &mut D, border: Border, masks: &[u64]) -> News
    requires count { length masks.now ≡ 9 }
    requires hold { IsOpen (D.end board.old) border }
    ensures read { AddsSome border.edge (AreNewsRead border.sites border.end masks.now result.words) (D.end board.old) (D.end board.new) }
    ensures border { result.border ≡ border }
    ensures long { length result.words ≡ 9 }
    ensures same { SameEnd (D.end board.old) (D.end board.new) }
    ensures moved { D.moved board.old board.new }
{
    let mut words = [0; 9];
    let count = (border.sites + 63) / 64;
    for word in 0..count {
        let i = word as usize;
        words[i] = read_word(board, border, word, masks[i]);
    }
    News { border, words }
}

/// Reads the cell of a place, if it is news.
pub(crate) fn read_site<D: Board>(board: &mut D, news: &News, place: u32) -> Option<Cell>
    requires place { place < news.now.border.sites }
    requires count { length news.now.words ≡ 9 }
    requires hold { IsOpen (D.end board.old) news.now.border }
    ensures read { AddsSome news.now.border.edge (IsSiteRead place (bit_in news.now.words place) result) (D.end board.old) (D.end board.new) }
    ensures same { SameEnd (D.end board.old) (D.end board.new) }
    ensures moved { D.moved board.old board.new }
{
    let word = news.words[(place / 64) as usize];
    if (word >> (place % 64)) & 1 == 0 {
        return None;
    }
    let edge = news.border.edge;
    let low = board.read(edge, 1 + 2 * place);
    let high = board.read(edge, 2 + 2 * place);
    Some(Cell::from_words(low, high))
}

/// Sets or clears the bits of a mask in a news word of an end.
fn put_word<D: Board>(board: &mut D, border: Border, word: u32, mask: u64, bit: bool)
    requires word { word < news_words border.sites }
    requires hold { IsOpen (D.end board.old) border }
    ensures put { AddsSome border.edge (IsWordPut (news_register border.sites border.end word) mask bit) (D.end board.old) (D.end board.new) }
    ensures same { SameEnd (D.end board.old) (D.end board.new) }
    ensures moved { D.moved board.old board.new }
{
    let register = news_word(border, word);
    let old = board.read(border.edge, register);
    board.write(border.edge, register, with_mask(old, mask, bit));
}

/// Clears the bits of a mask in a news word of an end, and sets them in that of the other end.
fn put_words<D: Board>(board: &mut D, border: Border, word: u32, mask: u64)
    requires word { word < news_words border.sites }
    requires hold { IsOpen (D.end board.old) border }
    ensures put { AddsSome border.edge (AreWordsPut border.sites border.end word mask) (D.end board.old) (D.end board.new) }
    ensures same { SameEnd (D.end board.old) (D.end board.new) }
    ensures moved { D.moved board.old board.new }
{
    if mask == 0 {
        return;
    }
    put_word(board, border, word, mask, false);
    let other = Border {
        edge: border.edge,
        sites: border.sites,
        end: 1 - border.end,
    };
    put_word(board, other, word, mask, true);
}

/// Clears the bits of these masks in the news words of an end, and sets them in those of the other end.
pub(crate) fn put_bits<D: Board>(board: &mut D, border: Border, masks: &[u64])
    requires count { length masks.now ≡ 9 }
    requires hold { IsOpen (D.end board.old) border }
    ensures put { AddsSome border.edge (AreBitsPut border.sites border.end masks.now) (D.end board.old) (D.end board.new) }
    ensures same { SameEnd (D.end board.old) (D.end board.new) }
    ensures moved { D.moved board.old board.new }
{
    let words = (border.sites + 63) / 64;
    for word in 0..words {
        put_words(board, border, word, masks[word as usize]);
    }
}

/// Writes a cell at its place.
pub(crate) fn put_cell<D: Board>(board: &mut D, border: Border, place: u32, cell: Cell)
    requires place { place < border.sites }
    requires hold { IsOpen (D.end board.old) border }
    ensures put { AddsSome border.edge (IsCellPut cell place) (D.end board.old) (D.end board.new) }
    ensures same { SameEnd (D.end board.old) (D.end board.new) }
    ensures moved { D.moved board.old board.new }
{
    let (low, high) = cell.words();
    board.write(border.edge, 1 + 2 * place, low);
    board.write(border.edge, 2 + 2 * place, high);
}
