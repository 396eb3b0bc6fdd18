// Labels, the search that orders a network by them, and the judge that tells a chordal network from one with a ring.
#![tactic(auto)]

pub mod judging;
pub mod label;
pub mod marks;
pub mod network;
mod perfect;
mod placing;
mod rings;
mod shortfall;
pub mod theorems;

pub use judging::{Verdict, judge, search};
pub use label::{Comparison, CountLabel, Label, ListLabel};
pub use marks::Marks;
pub use network::rows_of;
