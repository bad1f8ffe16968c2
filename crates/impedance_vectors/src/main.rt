// Vectors of the element impedances and of the peaks, one to a line: the function, its arguments, its result, an f64 by its bits
// in hexadecimal. tests/check-impedances confirms every line.
#![tactic(auto)]

mod impedance;
mod peak;
mod words;

use std::io;

fn main(rt: HostRuntime) -> io::Result<()> {
    let rt = &rt;
    impedance::all(rt)?;
    peak::all(rt)
}
