//! A graph whose nodes are numbers.

ghost use Rattle.std.specs.Prelude.{◌≡◌, ℕ, ◌<◌, List, Some, length, slice_get};

/// A graph: from each node lead some edges to others.
pub trait Ways {
    /// The nodes are the numbers below this one.
    ghost size: { Self → ℕ };

    /// Where the edges of a node lead.
    ghost next: { Self → ℕ → List ℕ };

    /// How many nodes there are.
    fn nodes(&self) -> u32
        ensures { result ≡ size self.now };

    /// How many edges a node has.
    fn degree(&self, node: u32) -> usize
        requires { node < size self.now }
        ensures { result ≡ length (next self.now node) };

    /// Where an edge of a node leads.
    fn step(&self, node: u32, edge: usize) -> u32
        requires node { node < size self.now }
        requires edge { edge < length (next self.now node) }
        ensures inside { result < size self.now }
        ensures leads { slice_get (next self.now node) edge ≡ Some result };
}
