//! What a window meets: its centre, the tile's end of an edge, and the news there.

/// The centre of a window.
#[derive(Clone, Copy)]
pub(crate) struct Centre {
    pub x: u32,
    pub y: u32,
}

/// An end of an edge: the edge's number, how many sites it shares, and which end it is.
#[derive(Clone, Copy)]
pub(crate) struct Border {
    pub edge: u32,
    pub sites: u32,
    pub end: u32,
}

/// What is news for an end of an edge, of the sites that were asked for: bit `n % 64` of word `n / 64`
/// is set if the cell of shared site `n` is. Two tiles share at most 576 sites, so nine words are
/// enough.
#[derive(Drop)]
pub(crate) struct News {
    pub border: Border,
    pub words: [u64; 9],
}
