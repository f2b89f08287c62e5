//! A text in parts, one after the other. Each is found from what is left of the text, and how far was
//! read to find it is kept with it: its reach.
//!
//! After a change the parts before it stay that were found without what changed. The others are found
//! anew, until one would begin where an old one began and both texts go on the same: that one and all
//! after it stay too. So a change costs one comparison of the texts, a step for each part, and finding
//! the parts around it and those before it that were found with what changed.
//!
//! What a part is, is told by who cuts the text.
#![tactic(auto)]

mod after;
mod cut;
mod found;
mod part;
mod parts;
mod shared;

pub use after::parts_after;
pub use cut::Cut;
pub use part::Part;
pub use parts::parts_of;
