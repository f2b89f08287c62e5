//! Which edges of a directed graph are part of a circle, in time that grows with the graph.
//!
//! A search that has no contract makes two forests. If they pass a test, they show which edges are
//! part of a circle; otherwise a plain search answers. So each answer is right, whatever the first
//! search does, and only the time depends on it.
//!
//! The circles themselves are found by following from each node its first edge that is part of one.
#![tactic(auto)]

mod certificate;
mod circle;
mod circles;
mod edge;
mod first_circles;
mod forests;
mod place;
mod plain;
mod search;
mod walk;

pub use circle::Circle;
pub use circles::in_circles;
pub use edge::Edge;
pub use first_circles::find_circles;
