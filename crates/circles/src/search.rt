//! A search through a graph, which makes a forest of its nodes. What it finds is tested before it
//! is used, so no contract says how it searches.
use crate::edge::Edge;
use crate::place::{NOWHERE, Place, place_of};
use std::alloc::{AllocError, Global};

/// What a search along the edges has found.
#[derive(Drop)]
pub(crate) struct Search {
    /// For each node its place in the forest.
    pub places: Vec<Place>,
    /// The nodes that the search has left, each after those that were found from there.
    pub left: Vec<usize>,
    /// The nodes from the root to where the search is.
    path: Vec<usize>,
    /// For each node the edge from there to be tried next.
    next: Vec<Option<usize>>,
    /// For each edge another one from the same node, to be tried after it.
    others: Vec<Option<usize>>,
    /// How many starts the search has passed.
    starts: usize,
    /// How many trees it has begun.
    trees: usize,
    /// How many nodes it has found.
    found: usize,
}

impl Search {
    /// Searches along the edges from each of the starts, over edges both of whose ends are in one
    /// tree of the bounds. Takes a step for each node, edge and start.
    pub(crate) fn along(
        alloc: Global,
        nodes: usize,
        edges: &[Edge],
        starts: &[usize],
        bounds: &[Place],
    ) -> Result<Self, AllocError> {
        let mut search = Search::new(alloc, nodes, edges)?;
        let steps = nodes
            .saturating_add(edges.len())
            .saturating_add(starts.len());
        for _ in 0..steps {
            search.step(edges, starts, bounds)?;
        }
        Ok(search)
    }

    /// Returns a search that has found nothing.
    fn new(alloc: Global, nodes: usize, edges: &[Edge]) -> Result<Self, AllocError> {
        let mut next = vec![in alloc; None; nodes]?;
        let mut others = Vec::with_capacity(alloc, edges.len())?;
        for (index, edge) in edges.iter().enumerate() {
            others.push(value_at(&next, edge.from))?;
            put(&mut next, edge.from, Some(index));
        }
        Ok(Search {
            places: vec![in alloc; NOWHERE; nodes]?,
            left: Vec::new(alloc),
            path: Vec::new(alloc),
            next,
            others,
            starts: 0,
            trees: 0,
            found: 0,
        })
    }

    /// Goes one step: over an edge, back from a node all of whose edges were tried, or to the next
    /// start.
    fn step(
        &mut self,
        edges: &[Edge],
        starts: &[usize],
        bounds: &[Place],
    ) -> Result<(), AllocError> {
        let Some(node) = self.path.last().copied() else {
            return self.start(starts);
        };
        let Some(index) = value_at(&self.next, node) else {
            self.path.pop();
            self.left.push(node)?;
            return Ok(());
        };
        put(&mut self.next, node, value_at(&self.others, index));
        self.go_over(edges, index, bounds)
    }

    /// Makes the next start the root of a tree, unless it was found.
    fn start(&mut self, starts: &[usize]) -> Result<(), AllocError> {
        let Some(node) = starts.get(self.starts).copied() else {
            return Ok(());
        };
        self.starts = self.starts.saturating_add(1);
        if place_of(&self.places, node).rank != 0 {
            return Ok(());
        }
        let tree = self.trees;
        self.trees = tree.saturating_add(1);
        self.find(node, tree, node, 0)
    }

    /// Goes over an edge, if it stays within bounds and leads to a node that wasn't found.
    fn go_over(
        &mut self,
        edges: &[Edge],
        index: usize,
        bounds: &[Place],
    ) -> Result<(), AllocError> {
        let Some(edge) = edges.get(index).copied() else {
            return Ok(());
        };
        if place_of(bounds, edge.from).tree != place_of(bounds, edge.to).tree
            || place_of(&self.places, edge.to).rank != 0
        {
            return Ok(());
        }
        let place = place_of(&self.places, edge.from);
        self.find(edge.to, place.tree, place.root, index)
    }

    /// Notes a node that was found, and goes there.
    fn find(
        &mut self,
        node: usize,
        tree: usize,
        root: usize,
        edge: usize,
    ) -> Result<(), AllocError> {
        self.found = self.found.saturating_add(1);
        let rank = self.found;
        put(
            &mut self.places,
            node,
            Place {
                tree,
                root,
                edge,
                rank,
            },
        );
        self.path.push(node)?;
        Ok(())
    }
}

/// Returns the value at an index, if there is one.
fn value_at(values: &[Option<usize>], index: usize) -> Option<usize> {
    match values.get(index) {
        Some(value) => *value,
        None => None,
    }
}

/// Puts a value at an index, if the list is so long.
fn put<T: Copy>(values: &mut [T], index: usize, value: T) {
    if index < values.len() {
        values[index] = value;
    }
}
