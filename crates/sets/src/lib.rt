// Sets of stations, and rows of them as the adjacency of a network.
#![tactic(auto)]

pub mod iter;
pub mod rows;
pub mod station_set;

pub use rows::Rows;
pub use station_set::StationSet;
