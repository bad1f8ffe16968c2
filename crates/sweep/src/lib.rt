// What works on columns alone, a number or a point for each bus: the two sweeps over a tree, and currents carried over it.
// A function ensures that it calculates its definition in specs/, for all arguments; that the sweeps give what a walk from each bus gives
// is proved in specs/laws.
#![tactic(auto)]

pub mod columns;
pub mod converters;
pub mod sweeps;
pub mod ways;

// The buses that a column has room for.
pub const BUSES: usize = 128;
