// What a line is made of: words, an f64 by its bits in hexadecimal.
use enclosure::Complex;
use std::io;

pub(crate) fn text(rt: &impl Print, s: &[u8]) -> io::Result<()> {
    rt.write_all(s)
}

pub(crate) fn end(rt: &impl Print) -> io::Result<()> {
    text(rt, b"\n")
}

pub(crate) fn number(rt: &impl Print, n: u64) -> io::Result<()> {
    print!(rt; " {n}")
}

pub(crate) fn field(rt: &impl Print, n: u32) -> io::Result<()> {
    number(rt, n as u64)
}

// The bits of x. Those of a NaN are not defined, so it gets a pattern that no number has.
fn pattern(x: f64) -> u64 {
    if x == x {
        f64::to_bits(x)
    } else {
        0x7ff8000000000000
    }
}

pub(crate) fn bits(rt: &impl Print, x: f64) -> io::Result<()> {
    let pattern = pattern(x);
    print!(rt; " {pattern:016x}")
}

pub(crate) fn point(rt: &impl Print, z: Complex) -> io::Result<()> {
    bits(rt, z.re)?;
    bits(rt, z.im)
}
