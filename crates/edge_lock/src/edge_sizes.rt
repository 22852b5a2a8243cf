//! The edges of a plane as numbers, which is all that a lock knows of a map.
ghost use Rattle.std.specs.Prelude.{◌≡◌, ◌<◌, ◌^◌, ℕ, length, All};
ghost use Rattle.edge_lock.specs.Edges.{sizes_of};

use tile_map::Map;

/// The edges of a plane: each joins two tiles and has a number of shared sites, from which its
/// number of registers follows.
pub trait EdgeSizes {
    ghost use Rattle.edge_lock.specs.Edges.{EdgeSize, IsEdgeSize, size_at, registers_of};
    ghost use Rattle.std.specs.Prelude.{List};

    ghost sizes: { Self → List EdgeSize };

    /// How many edges there are. They are numbered from 0.
    fn edges(&self) -> u32
        ensures count { result ≡ length (sizes self.now) }
        ensures ordered { All IsEdgeSize (sizes self.now) };

    /// The two tiles of an edge, the lower first.
    fn ends(&self, edge: u32) -> (u32, u32)
        requires { edge < length (sizes self.now) }
        ensures lower { result.0 ≡ (size_at (sizes self.now) edge).lower }
        ensures higher { result.1 ≡ (size_at (sizes self.now) edge).higher };

    /// The number of shared sites of an edge.
    fn sites(&self, edge: u32) -> u32
        requires { edge < length (sizes self.now) }
        ensures value { result ≡ (size_at (sizes self.now) edge).sites }
        ensures fits { registers_of result < 2 ^ 32 };

    /// The number of registers of an edge: the clock, two for each shared site, and for each end one
    /// bit for each shared site, 64 bits a word.
    fn registers(&self, edge: u32) -> u32
        requires { edge < length (sizes self.now) }
        ensures { result ≡ registers_of (size_at (sizes self.now) edge).sites };
}

impl EdgeSizes for Map {
    ghost sizes = { λ m. sizes_of m };

    fn edges(&self) -> u32 {
        self.edges()
    }

    fn ends(&self, edge: u32) -> (u32, u32) {
        self.ends(edge)
    }

    fn sites(&self, edge: u32) -> u32 {
        self.shared(edge)
    }

    fn registers(&self, edge: u32) -> u32 {
        let sites = self.shared(edge);
        1 + 2 * sites + 2 * ((sites + 63) / 64)
    }
}
