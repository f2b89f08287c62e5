//! Whether two forests show which edges are part of a circle.
ghost use Rattle.std.specs.Prelude.{◌≡◌, ◌==◌, ◌↔◌, All, IfOk, IsTrue, map};
ghost use Rattle.circles.specs.Certificate.{
  ComesFromRoot,
  GoesToRoot,
  IsCertified,
  IsNearer,
  StaysInTree,
  place_of as place_in,
};

use crate::edge::Edge;
use crate::place::{Place, place_of};
use std::alloc::{AllocError, Global};

/// Returns whether each edge leads to a later tree, or is in a circle of its tree.
pub(crate) fn are_certified(edges: &[Edge], to_roots: &[Place], from_roots: &[Place]) -> bool
    ensures { IsTrue result
        → All (IsCertified edges.now to_roots.now from_roots.now) edges.now }
{
    for edge in edges {
        if !is_certified(edges, to_roots, from_roots, *edge) {
            return false;
        }
    }
    true
}

/// Returns for each edge whether it stays in a tree.
pub(crate) fn staying_in_trees(
    alloc: Global,
    edges: &[Edge],
    places: &[Place],
) -> Result<Vec<bool>, AllocError>
    ensures { IfOk result (λ found. found.items
        ≡ map (λ e. (place_in places.now e.from).tree == (place_in places.now e.to).tree)
        edges.now) }
{
    edges
        .iter()
        .map(|edge| stays_in_tree(places, *edge))
        .collect(alloc)
}

/// Returns whether an edge leads to a later tree, or is in a circle of its tree.
fn is_certified(edges: &[Edge], to_roots: &[Place], from_roots: &[Place], edge: Edge) -> bool
    ensures { IsTrue result → IsCertified edges.now to_roots.now from_roots.now edge }
{
    let begin = place_of(to_roots, edge.from);
    let end = place_of(to_roots, edge.to);
    if begin.tree < end.tree {
        return true;
    }
    begin.tree == end.tree
        && end.root == place_of(from_roots, edge.from).root
        && goes_to_root(edges, to_roots, edge.to)
        && comes_from_root(edges, to_roots, from_roots, edge.from)
}

/// Returns whether a node is a root, or an edge leads from it to a node nearer to the root.
fn goes_to_root(edges: &[Edge], to_roots: &[Place], node: usize) -> bool
    ensures { IsTrue result → GoesToRoot edges.now to_roots.now node }
{
    let place = place_of(to_roots, node);
    if place.root == node {
        return true;
    }
    match edges.get(place.edge) {
        Some(edge) => {
            edge.from == node
                && stays_in_tree(to_roots, *edge)
                && is_nearer(place_of(to_roots, edge.to), place)
        }
        None => false,
    }
}

/// Returns whether a node is a root, or an edge leads to it from a node nearer to the root.
fn comes_from_root(edges: &[Edge], to_roots: &[Place], from_roots: &[Place], node: usize) -> bool
    ensures { IsTrue result → ComesFromRoot edges.now to_roots.now from_roots.now node }
{
    let place = place_of(from_roots, node);
    if place.root == node {
        return true;
    }
    match edges.get(place.edge) {
        Some(edge) => {
            edge.to == node
                && stays_in_tree(to_roots, *edge)
                && is_nearer(place_of(from_roots, edge.from), place)
        }
        None => false,
    }
}

/// Returns whether both ends of an edge are in trees of the same number.
fn stays_in_tree(places: &[Place], edge: Edge) -> bool
    ensures { result
        ≡ ((place_in places.now edge.from).tree == (place_in places.now edge.to).tree) }
{
    place_of(places, edge.from).tree == place_of(places, edge.to).tree
}

/// Returns whether a place has the same root as another, and was found earlier.
fn is_nearer(near: Place, far: Place) -> bool
    ensures { IsTrue result ↔ IsNearer near far }
{
    near.root == far.root && near.rank < far.rank
}
