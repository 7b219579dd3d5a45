//! The path of nodes to the lot read last.

ghost use Rattle.std.specs.Prelude.{◌≡◌, true, ◌<◌, ◌≤◌, [], ◌∷◌, length, ◌==◌};
ghost use Rattle.leaders.specs.Verdict.{spent, taken};

use std::marker::Model;

/// The most bits that the brackets of a sheet have, and so the most nodes of a path: two for each of 4,000 lots, and two around them.
pub(crate) const MOST_BRACKETS: usize = 8_002;

/// A path of nodes, each by the child places that it has left, the node read last first.
#[derive(Drop)]
pub(crate) struct Path {
    places: [u16; MOST_BRACKETS],
    top: usize,
}

impl Model for Path {
    ghost use Rattle.std.specs.Prelude.{ℕ, List, ◌≤◌, drop};
    ghost use Rattle.reading.specs.declared.path.TheConstants.{MOST_BRACKETS};

    ghost Value = { List ℕ };

    ghost view = { λ p. drop p.top p.places };

    ghost invariant = { λ p. p.top ≤ MOST_BRACKETS };
}

impl Path {
    /// A path with no node.
    pub(crate) fn new() -> Path
        ensures { result ≡ [] }
    {
        Path {
            places: [0; MOST_BRACKETS],
            top: MOST_BRACKETS,
        }
    }

    pub(crate) fn is_empty(&self) -> bool
        ensures { result ≡ (length self.now == 0) }
    {
        self.top == MOST_BRACKETS
    }

    /// The next lot takes a child place, and comes onto the path with `d` places of its own. Says how many nodes have none left, and so leave the path.
    pub(crate) fn settle(&mut self, d: u16) -> usize
        requires { length self.old < MOST_BRACKETS }
        ensures before { result ≡ spent self.old }
        ensures short { result ≤ MOST_BRACKETS }
        ensures path { self.new ≡ d ∷ taken self.old }
    {
        let nodes = &self.places[self.top..];
        let before = nodes
            .iter()
            .position(|places| *places != 0)
            .unwrap_or(nodes.len());
        let next = self.top + before;
        if next < MOST_BRACKETS {
            self.places[next] -= 1;
        }
        self.top = next - 1;
        self.places[self.top] = d;
        before
    }
}
