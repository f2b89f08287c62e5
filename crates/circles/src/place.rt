//! Where nodes are in a forest that a search made.
ghost use Rattle.std.specs.Prelude.{◌≡◌};
ghost use Rattle.circles.specs.Certificate.{place_of};

/// Where a node is in a forest.
#[derive(Clone, Copy)]
pub(crate) struct Place {
    /// How many trees were made before this one.
    pub tree: usize,
    /// The node that this tree begins with.
    pub root: usize,
    /// The index of the edge over which the node was found, unless it is the root.
    pub edge: usize,
    /// How many nodes were found up to this one, itself included.
    pub rank: usize,
}

/// The place of a node that wasn't found.
pub(crate) const NOWHERE: Place = Place {
    tree: 0,
    root: 0,
    edge: 0,
    rank: 0,
};

/// Returns the place of a node.
pub(crate) fn place_of(places: &[Place], node: usize) -> Place
    ensures { result ≡ place_of places.now node }
{
    match places.get(node) {
        Some(place) => *place,
        None => NOWHERE,
    }
}
