//! The circles of a graph.

/// Edges, each from where the one before it ends, and the first from where the last ends. They are
/// indices in a list of edges.
#[derive(Drop)]
pub struct Circle {
    /// The first edge.
    pub first: usize,
    /// The other ones.
    pub others: Vec<usize>,
}
