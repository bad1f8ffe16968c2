// Places in the peak table and peaks, about the table's steps and from 1 A to 10^13 A.
ghost use Rattle.std.specs.Prelude.{◌≤◌};

use crate::words::{end, field, number, point, text};
use elements::impedances::feeder;
use elements::peaks;
use enclosure::{Complex, inverse, nothing, of, scale};
use std::io;

fn place(rt: &impl Print, y: Complex) -> io::Result<()> {
    text(rt, b"place")?;
    point(rt, y)?;
    field(rt, peaks::place(y))?;
    end(rt)
}

fn driven(rt: &impl Print, name: &[u8], y: Complex, c: u32, volts: u32) -> io::Result<()> {
    text(rt, name)?;
    point(rt, y)?;
    field(rt, c)?;
    field(rt, volts)
}

fn current(rt: &impl Print, y: Complex, c: u32, volts: u32) -> io::Result<()> {
    driven(rt, b"current", y, c, volts)?;
    point(rt, peaks::current(y, c, volts))?;
    end(rt)
}

fn machine_peak(rt: &impl Print, y: Complex, c: u32, volts: u32) -> io::Result<()> {
    driven(rt, b"machine_peak", y, c, volts)?;
    number(rt, peaks::machine_peak(y, c, volts))?;
    end(rt)
}

fn converter_peak(rt: &impl Print, x: Complex) -> io::Result<()> {
    text(rt, b"converter_peak")?;
    point(rt, x)?;
    number(rt, peaks::converter_peak(x))?;
    end(rt)
}

fn fault(rt: &impl Print, y: Complex, c: u32, volts: u32) -> io::Result<()> {
    place(rt, y)?;
    current(rt, y, c, volts)?;
    machine_peak(rt, y, c, volts)
}

// Admittances whose G/B is g/b, exactly so in the last one. With g and b about 10^9 the currents are about 1 A, 40 A, 13 kA and
// 10^13 A.
fn faults(rt: &impl Print, g: u32, b: u32) -> io::Result<()> {
    let y = scale(of(g, b), 1, 1_000_000_000);
    fault(rt, scale(y, 1, 60), 105, 100)?;
    fault(rt, scale(y, 1, 7), 110, 400)?;
    fault(rt, y, 110, 20_000)?;
    fault(rt, scale(of(g, b), 1, 32), 110, 420_000)
}

// G/B on i hundredths, a billionth below and above, a ten-millionth above, and a tenth of a step above.
fn step(rt: &impl Print, i: u32) -> io::Result<()>
    requires { (1 ≤ i) × (i ≤ 230) }
{
    faults(rt, 10_000_000 * i - 1, 1_000_000_000)?;
    faults(rt, 10_000_000 * i, 1_000_000_000)?;
    faults(rt, 10_000_000 * i + 1, 1_000_000_000)?;
    faults(rt, 10_000_000 * i + 100, 1_000_000_000)?;
    faults(rt, 10_000_000 * i + 1_000_000, 1_000_000_000)
}

fn steps(rt: &impl Print) -> io::Result<()> {
    step(rt, 1)?;
    step(rt, 10)?;
    step(rt, 42)?;
    step(rt, 229)?;
    step(rt, 230)
}

// G/B 0, and far above the table's end.
fn ends(rt: &impl Print) -> io::Result<()> {
    faults(rt, 0, 1_000_000_000)?;
    faults(rt, 3_000_000_000, 1_000_000_000)?;
    faults(rt, 1_000_000_000, 1_000_000)?;
    faults(rt, 4_000_000_000, 1)
}

// p times q amperes: of converters, and about as many of machines whose R/X is near 10 hundredths.
fn amperes(rt: &impl Print, p: u32, q: u32) -> io::Result<()> {
    converter_peak(rt, scale(of(p, 0), q, 1))?;
    let y = scale(of(7_834, 78_339), 1, 1_000_000_000);
    fault(rt, scale(scale(y, p, 1), q, 1), 110, 20_000)
}

fn powers_of_ten(rt: &impl Print) -> io::Result<()> {
    amperes(rt, 1, 1)?;
    amperes(rt, 10, 1)?;
    amperes(rt, 100, 1)?;
    amperes(rt, 1_000, 1)?;
    amperes(rt, 10_000, 1)?;
    amperes(rt, 100_000, 1)?;
    amperes(rt, 1_000_000, 1)?;
    amperes(rt, 10_000_000, 1)?;
    amperes(rt, 100_000_000, 1)?;
    amperes(rt, 1_000_000_000, 1)?;
    amperes(rt, 1_000_000_000, 10)?;
    amperes(rt, 1_000_000_000, 100)?;
    amperes(rt, 1_000_000_000, 1_000)?;
    amperes(rt, 1_000_000_000, 10_000)
}

// Document 01's worked feeder alone: its peak is from 35,641 to 36,356 A.
fn worked(rt: &impl Print) -> io::Result<()> {
    fault(rt, inverse(feeder(6, 20_000, 500_000, 10)), 110, 20_000)
}

// No converter, less than an ampere, and currents whose peaks are nearly whole, from below and from above.
fn converter_peaks(rt: &impl Print) -> io::Result<()> {
    converter_peak(rt, nothing())?;
    converter_peak(rt, scale(of(1, 0), 1, 1_000))?;
    converter_peak(rt, scale(of(1, 0), 1, 10))?;
    converter_peak(rt, of(2_378, 0))?;
    converter_peak(rt, of(5_741, 0))?;
    converter_peak(rt, of(225_058_681, 0))?;
    converter_peak(rt, of(543_339_720, 0))
}

pub(crate) fn all(rt: &impl Print) -> io::Result<()> {
    steps(rt)?;
    ends(rt)?;
    powers_of_ten(rt)?;
    worked(rt)?;
    converter_peaks(rt)
}
