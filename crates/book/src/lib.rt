// The field book: words, lines and the whole, read into a matrix.
#![tactic(auto)]

pub mod faults;
mod lines;
pub mod names;
mod part;
mod printing;
pub mod reader;
mod words;

pub use faults::{BookFault, Layer, LineFault, WordFault};
pub use names::Names;
pub use reader::{ReadError, read};
