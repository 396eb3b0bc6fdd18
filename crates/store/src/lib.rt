// Stores of networks: refusals, the trait that every store keeps, and the matrix.
#![tactic(auto)]

pub mod matrix;
mod pair;
pub mod refusal;
mod square;
pub mod store;

pub use matrix::Matrix;
pub use refusal::Refusal;
pub use store::Store;
