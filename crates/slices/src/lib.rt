// Slices over any site, and what a fetch tells of what a path names.
#![tactic(auto)]

mod range;
pub mod slice;
pub mod survey;
pub mod worked;
