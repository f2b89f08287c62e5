//! Two forests of a graph, in which nodes are in one tree if each leads to the other.
use crate::edge::Edge;
use crate::place::Place;
use crate::search::Search;
use std::alloc::{AllocError, Global};

/// Two forests with the same trees. No contract says so: what they show is tested.
#[derive(Drop)]
pub(crate) struct Forests {
    /// Here edges lead from each node to the root of its tree.
    pub to_roots: Vec<Place>,
    /// Here edges lead from the root to each node of its tree.
    pub from_roots: Vec<Place>,
}

impl Forests {
    /// Returns the forests of a graph. An edge from one tree leads to the same or to a later one.
    ///
    /// Searches along the edges, and then against them, from the node that was left last. What is
    /// found from there leads to that node, which leads there, too, since it was left later. So it
    /// is a tree, and so on from the last of the other nodes. Then searches along the edges in each
    /// tree.
    pub(crate) fn new(alloc: Global, nodes: usize, edges: &[Edge]) -> Result<Self, AllocError> {
        let reversed: Vec<Edge> = edges.iter().map(|edge| edge.reversed()).collect(alloc)?;
        let all: Vec<usize> = (0..nodes).collect(alloc)?;
        let mut starts = Search::along(alloc, nodes, edges, &all, &[])?.left;
        starts.reverse();
        let to_roots = Search::along(alloc, nodes, &reversed, &starts, &[])?.places;
        let from_roots = Search::along(alloc, nodes, edges, &starts, &to_roots)?.places;
        Ok(Forests {
            to_roots,
            from_roots,
        })
    }
}
