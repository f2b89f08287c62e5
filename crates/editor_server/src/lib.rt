//! A server for editors over any language: documents, answers, and messages over streams.
#![tactic(auto)]

mod documents;
mod reaction;
mod sent;
mod server;
mod stream;

pub use sent::Sent;
pub use server::Server;
pub use stream::serve;
