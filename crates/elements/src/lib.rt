// The elements of a network: document 01's factors, its peak table and its element impedances, and document 02's factor μ.
#![tactic(auto)]

pub mod factors;
pub mod impedances;
pub mod mu;
pub mod peaks;
mod tables;
