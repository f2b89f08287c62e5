//! The chunks of a text and their laws: what a text derives is what its chunks derive, joined. Their
//! spans, from the text's tokens; and the cuts at which a text can be read in parts.
#![tactic(auto)]

mod cuts;
pub mod examples;
mod parts;
mod span;
mod spans;

ghost use Rattle.justfile_chunks.specs.Chunks.{NumberLaw, ShapeLaw, TokenLaw, TreeLaw};
ghost use Rattle.justfile_chunks.specs.Parts.{JoinedShapeLaw, PartsLaw, ReadLaw};

pub use crate::parts::{find_cut, take_next};
pub use crate::span::Span;
pub use crate::spans::chunks;

/// A text derives a shape exactly if its chunks derive it. The chunks are the text cut at its items,
/// each after the line feed before it. The shape is theirs, joined, without the items of these line
/// feeds.
pub fn chunks_derive()
    ensures law { ShapeLaw }
{}

/// The same for trees, which hold tokens with their places. A chunk's tokens and its tree are moved
/// by the offset and the line of the line feed before it. The tokens of each chunk that derives a
/// tree are those of the text, except that a dedent or the end can be elsewhere. The numbers of
/// bindings and of recipes in a text follow on from chunk to chunk.
pub fn chunks_derive_trees()
    ensures trees { TreeLaw }
    ensures tokens { TokenLaw }
    ensures numbers { NumberLaw }
{}

/// Of a text that was read up to a byte after it, and one that is parsed from that byte on, after a
/// line feed, the whole derives both trees, joined. The byte is no blank and no line end. A text was
/// read so if its tokens end at a cut before the byte, and with the end in the byte's place they
/// derive a tree. So a text can be parsed in parts, each by itself: it derives their trees, moved to
/// their places and joined.
pub fn parts_join()
    ensures two { ReadLaw }
    ensures many { PartsLaw }
    ensures shapes { JoinedShapeLaw }
{}
