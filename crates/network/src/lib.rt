// A study of a radial network: what it holds (study), the calls that make it (calls; several additions in one, additions), and what it is
// asked (query; all buses together, report). The other modules are what these stand on.
#![tactic(auto)]

pub mod additions;
mod board;
mod bus_grounds;
pub mod calls;
mod checks;
mod columns;
mod contents;
mod figures;
pub mod query;
mod records;
pub mod report;
mod rows;
mod source_grounds;
mod source_kinds;
pub mod study;
pub mod ways;

pub use contents::{buses_of, is_closed, sources_of, tolerance_of};
pub use source_kinds::{has_generator, is_converter, kva_seen, machine_admittance, volts_seen};
