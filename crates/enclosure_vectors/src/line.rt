// A line for each operation: its name, its inputs, its result.
use enclosure::Complex;
use std::io;

pub(crate) fn text(rt: &impl Print, s: &[u8]) -> io::Result<()> {
    rt.write_all(s)
}

pub(crate) fn end(rt: &impl Print) -> io::Result<()> {
    text(rt, b"\n")
}

pub(crate) fn number(rt: &impl Print, n: u64) -> io::Result<()> {
    print!(rt; " {n}")
}

// The bits of x. Those of a NaN are not defined, so it gets a pattern that no number has.
fn pattern(x: f64) -> u64 {
    if x == x {
        f64::to_bits(x)
    } else {
        0x7ff8000000000000
    }
}

pub(crate) fn bits(rt: &impl Print, x: f64) -> io::Result<()> {
    let pattern = pattern(x);
    print!(rt; " {pattern:016x}")
}

fn point(rt: &impl Print, z: Complex) -> io::Result<()> {
    bits(rt, z.re)?;
    bits(rt, z.im)
}

// Ends a line whose result is a point.
fn result(rt: &impl Print, z: Complex) -> io::Result<Complex> {
    point(rt, z)?;
    end(rt)?;
    Ok(z)
}

pub(crate) fn pair(rt: &impl Print, name: &[u8], a: u64, b: u64) -> io::Result<()> {
    text(rt, name)?;
    number(rt, a)?;
    number(rt, b)
}

// A name, a point and p/q.
fn ratio(rt: &impl Print, name: &[u8], z: Complex, p: u64, q: u64) -> io::Result<()> {
    text(rt, name)?;
    point(rt, z)?;
    number(rt, p)?;
    number(rt, q)
}

pub(crate) fn nothing(rt: &impl Print) -> io::Result<()> {
    text(rt, b"nothing")?;
    result(rt, enclosure::nothing())?;
    Ok(())
}

pub(crate) fn of(rt: &impl Print, re: u32, im: u32) -> io::Result<Complex> {
    pair(rt, b"of", re as u64, im as u64)?;
    result(rt, enclosure::of(re, im))
}

pub(crate) fn add(rt: &impl Print, x: Complex, y: Complex) -> io::Result<Complex> {
    text(rt, b"add")?;
    point(rt, x)?;
    point(rt, y)?;
    result(rt, enclosure::add(x, y))
}

pub(crate) fn is_nothing(rt: &impl Print, z: Complex) -> io::Result<()> {
    text(rt, b"is_nothing")?;
    point(rt, z)?;
    number(rt, enclosure::is_nothing(z) as u64)?;
    end(rt)
}

pub(crate) fn inverse(rt: &impl Print, z: Complex) -> io::Result<Complex> {
    text(rt, b"inverse")?;
    point(rt, z)?;
    result(rt, enclosure::inverse(z))
}

pub(crate) fn scale(rt: &impl Print, z: Complex, p: u32, q: u32) -> io::Result<Complex> {
    ratio(rt, b"scale", z, p as u64, q as u64)?;
    result(rt, enclosure::scale(z, p, q))
}

pub(crate) fn scale_wide(rt: &impl Print, z: Complex, p: u64, q: u64) -> io::Result<()> {
    ratio(rt, b"scale_wide", z, p, q)?;
    result(rt, enclosure::scale_wide(z, p, q))?;
    Ok(())
}

pub(crate) fn lower(rt: &impl Print, z: Complex, p: u16, q: u16) -> io::Result<()> {
    ratio(rt, b"lower", z, p as u64, q as u64)?;
    number(rt, enclosure::lower(z, p, q))?;
    end(rt)
}

pub(crate) fn upper(rt: &impl Print, z: Complex, p: u16, q: u16) -> io::Result<()> {
    ratio(rt, b"upper", z, p as u64, q as u64)?;
    number(rt, enclosure::upper(z, p, q))?;
    end(rt)
}

pub(crate) fn enclose(rt: &impl Print, z: Complex, p: u16, q: u16) -> io::Result<()> {
    ratio(rt, b"enclose", z, p as u64, q as u64)?;
    let b = enclosure::enclose(z, p, q);
    number(rt, b.lower)?;
    number(rt, b.upper)?;
    end(rt)
}
