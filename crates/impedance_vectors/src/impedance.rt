// The element impedances at the ends of the documents' ranges.
use crate::words::{end, field, point, text};
use elements::impedances;
use enclosure::Complex;
use std::io;

// A name and the first four arguments.
fn begin(rt: &impl Print, name: &[u8], a: u32, b: u32, c: u32, d: u32) -> io::Result<()> {
    text(rt, name)?;
    field(rt, a)?;
    field(rt, b)?;
    field(rt, c)?;
    field(rt, d)
}

fn result(rt: &impl Print, z: Complex) -> io::Result<()> {
    point(rt, z)?;
    end(rt)
}

fn line(rt: &impl Print, r: u32, x: u32, metres: u32, circuits: u32) -> io::Result<()> {
    begin(rt, b"line", r, x, metres, circuits)?;
    result(rt, impedances::line(r, x, metres, circuits))
}

fn transformer(
    rt: &impl Print,
    tolerance: u32,
    lower: u32,
    own: u32,
    kva: u32,
    uk: u32,
    ur: u32,
) -> io::Result<()> {
    begin(rt, b"transformer", tolerance, lower, own, kva)?;
    field(rt, uk)?;
    field(rt, ur)?;
    result(
        rt,
        impedances::transformer(tolerance, lower, own, kva, uk, ur),
    )
}

fn feeder(rt: &impl Print, tolerance: u32, volts: u32, kva: u32, rho: u32) -> io::Result<()> {
    begin(rt, b"feeder", tolerance, volts, kva, rho)?;
    result(rt, impedances::feeder(tolerance, volts, kva, rho))
}

fn generator(
    rt: &impl Print,
    tolerance: u32,
    volts: u32,
    rated: u32,
    kva: u32,
    xd: u32,
    rho: u32,
    power_factor: u32,
) -> io::Result<()> {
    begin(rt, b"generator", tolerance, volts, rated, kva)?;
    field(rt, xd)?;
    field(rt, rho)?;
    field(rt, power_factor)?;
    result(
        rt,
        impedances::generator(tolerance, volts, rated, kva, xd, rho, power_factor),
    )
}

fn motor(rt: &impl Print, rated: u32, kva: u32, ratio: u32, rho: u32) -> io::Result<()> {
    begin(rt, b"motor", rated, kva, ratio, rho)?;
    result(rt, impedances::motor(rated, kva, ratio, rho))
}

fn converter(rt: &impl Print, tenths: u32, k: u32) -> io::Result<()> {
    text(rt, b"converter")?;
    field(rt, tenths)?;
    field(rt, k)?;
    result(rt, impedances::converter(tenths, k))
}

// A power station unit: its bus, its generator, then the transformer's low volts, kVA, uk and uR.
fn unit(
    rt: &impl Print,
    tolerance: u32,
    volts: u32,
    rated: u32,
    kva: u32,
    xd: u32,
    rho: u32,
    power_factor: u32,
    low: u32,
    transformer_kva: u32,
    uk: u32,
    ur: u32,
) -> io::Result<()> {
    begin(rt, b"unit", tolerance, volts, rated, kva)?;
    field(rt, xd)?;
    field(rt, rho)?;
    field(rt, power_factor)?;
    field(rt, low)?;
    field(rt, transformer_kva)?;
    field(rt, uk)?;
    field(rt, ur)?;
    result(
        rt,
        impedances::station_unit(
            tolerance,
            volts,
            rated,
            kva,
            xd,
            rho,
            power_factor,
            low,
            transformer_kva,
            uk,
            ur,
        ),
    )
}

// Lengths and circuits; 7 circuits divide nothing evenly.
fn lengths(rt: &impl Print, r: u32, x: u32) -> io::Result<()> {
    line(rt, r, x, 1, 1)?;
    line(rt, r, x, 1, 7)?;
    line(rt, r, x, 1, 8)?;
    line(rt, r, x, 200_000, 1)?;
    line(rt, r, x, 200_000, 7)?;
    line(rt, r, x, 200_000, 8)
}

fn lines(rt: &impl Print) -> io::Result<()> {
    lengths(rt, 0, 1)?;
    lengths(rt, 0, 100_000)?;
    lengths(rt, 1, 0)?;
    lengths(rt, 1, 1)?;
    lengths(rt, 1, 100_000)?;
    lengths(rt, 100_000, 0)?;
    lengths(rt, 100_000, 1)?;
    lengths(rt, 100_000, 100_000)
}

// uk and uR.
fn windings(rt: &impl Print, tolerance: u32, lower: u32, own: u32, kva: u32) -> io::Result<()> {
    transformer(rt, tolerance, lower, own, kva, 100, 0)?;
    transformer(rt, tolerance, lower, own, kva, 100, 99)?;
    transformer(rt, tolerance, lower, own, kva, 30_000, 0)?;
    transformer(rt, tolerance, lower, own, kva, 30_000, 29_999)
}

fn transformers(rt: &impl Print, lower: u32, own: u32) -> io::Result<()> {
    windings(rt, 6, lower, own, 10)?;
    windings(rt, 6, lower, own, 1_000_000)?;
    windings(rt, 10, lower, own, 10)?;
    windings(rt, 10, lower, own, 1_000_000)
}

fn feeder_ratios(rt: &impl Print, tolerance: u32, volts: u32, kva: u32) -> io::Result<()> {
    feeder(rt, tolerance, volts, kva, 0)?;
    feeder(rt, tolerance, volts, kva, 10)?;
    feeder(rt, tolerance, volts, kva, 200)
}

fn feeders(rt: &impl Print, volts: u32) -> io::Result<()> {
    feeder_ratios(rt, 6, volts, 1_000)?;
    feeder_ratios(rt, 6, volts, 100_000_000)?;
    feeder_ratios(rt, 10, volts, 1_000)?;
    feeder_ratios(rt, 10, volts, 100_000_000)
}

// R/X and the power factor.
fn generator_ratios(
    rt: &impl Print,
    tolerance: u32,
    volts: u32,
    rated: u32,
    kva: u32,
    xd: u32,
) -> io::Result<()> {
    generator(rt, tolerance, volts, rated, kva, xd, 0, 70)?;
    generator(rt, tolerance, volts, rated, kva, xd, 0, 100)?;
    generator(rt, tolerance, volts, rated, kva, xd, 200, 70)?;
    generator(rt, tolerance, volts, rated, kva, xd, 200, 100)
}

fn generator_ratings(rt: &impl Print, tolerance: u32, volts: u32, rated: u32) -> io::Result<()> {
    generator_ratios(rt, tolerance, volts, rated, 10, 1_000)?;
    generator_ratios(rt, tolerance, volts, rated, 10, 100_000)?;
    generator_ratios(rt, tolerance, volts, rated, 1_000_000, 1_000)?;
    generator_ratios(rt, tolerance, volts, rated, 1_000_000, 100_000)
}

fn motor_ratios(rt: &impl Print, rated: u32, kva: u32, ratio: u32) -> io::Result<()> {
    motor(rt, rated, kva, ratio, 0)?;
    motor(rt, rated, kva, ratio, 10)?;
    motor(rt, rated, kva, ratio, 200)
}

fn motors(rt: &impl Print, rated: u32) -> io::Result<()> {
    motor_ratios(rt, rated, 1, 10)?;
    motor_ratios(rt, rated, 1, 100)?;
    motor_ratios(rt, rated, 100_000, 10)?;
    motor_ratios(rt, rated, 100_000, 100)
}

// Everything that has a rated voltage.
fn at(rt: &impl Print, volts: u32, rated: u32) -> io::Result<()> {
    transformers(rt, volts, rated)?;
    generator_ratings(rt, 6, volts, rated)?;
    generator_ratings(rt, 10, volts, rated)?;
    motors(rt, rated)
}

// The nominal voltages at which c can change, with the least and the greatest rated voltage.
fn voltages(rt: &impl Print) -> io::Result<()> {
    feeders(rt, 100)?;
    at(rt, 100, 90)?;
    at(rt, 100, 110)?;
    feeders(rt, 1_000)?;
    at(rt, 1_000, 900)?;
    at(rt, 1_000, 1_100)?;
    feeders(rt, 1_001)?;
    at(rt, 1_001, 901)?;
    at(rt, 1_001, 1_101)?;
    feeders(rt, 420_000)?;
    at(rt, 420_000, 378_000)?;
    at(rt, 420_000, 462_000)
}

// xd above, below and equal to ux, with the least and the greatest of the rest.
fn unit_reactances(
    rt: &impl Print,
    tolerance: u32,
    volts: u32,
    rated: u32,
    kva: u32,
    low: u32,
    other: u32,
) -> io::Result<()> {
    unit(
        rt, tolerance, volts, rated, kva, 1_000, 200, 70, low, other, 100, 0,
    )?;
    unit(
        rt, tolerance, volts, rated, kva, 1_000, 0, 100, low, other, 100, 99,
    )?;
    unit(
        rt, tolerance, volts, rated, kva, 1_000, 0, 70, low, other, 30_000, 0,
    )?;
    unit(
        rt, tolerance, volts, rated, kva, 30_000, 200, 70, low, other, 30_000, 0,
    )?;
    unit(
        rt, tolerance, volts, rated, kva, 100_000, 200, 100, low, other, 30_000, 29_999,
    )?;
    unit(
        rt, tolerance, volts, rated, kva, 100_000, 0, 70, low, other, 30_000, 0,
    )
}

fn unit_powers(
    rt: &impl Print,
    tolerance: u32,
    volts: u32,
    rated: u32,
    low: u32,
) -> io::Result<()> {
    unit_reactances(rt, tolerance, volts, rated, 10, low, 10)?;
    unit_reactances(rt, tolerance, volts, rated, 10, low, 1_000_000)?;
    unit_reactances(rt, tolerance, volts, rated, 1_000_000, low, 10)?;
    unit_reactances(rt, tolerance, volts, rated, 1_000_000, low, 1_000_000)
}

// The least and the greatest low volts, with the least and the greatest rated volts of the generator.
fn units(rt: &impl Print, tolerance: u32, volts: u32) -> io::Result<()> {
    unit_powers(rt, tolerance, volts, 81, 90)?;
    unit_powers(rt, tolerance, volts, 99, 90)?;
    unit_powers(rt, tolerance, volts, 415_800, 462_000)?;
    unit_powers(rt, tolerance, volts, 508_200, 462_000)
}

fn all_units(rt: &impl Print) -> io::Result<()> {
    units(rt, 6, 100)?;
    units(rt, 10, 1_000)?;
    units(rt, 6, 1_001)?;
    units(rt, 10, 420_000)
}

// Transformers whose own side is the higher one.
fn step_down(rt: &impl Print) -> io::Result<()> {
    transformers(rt, 100, 462_000)?;
    transformers(rt, 1_000, 378_000)?;
    transformers(rt, 1_001, 462_000)
}

fn converters(rt: &impl Print) -> io::Result<()> {
    converter(rt, 1, 100)?;
    converter(rt, 1, 300)?;
    converter(rt, 100_000, 100)?;
    converter(rt, 100_000, 300)
}

// Document 01's worked points: a feeder alone, the network of two buses, document 000's generator unit; the last also as a unit of
// document 02, and one past each range that the calculation asks for.
fn worked(rt: &impl Print) -> io::Result<()> {
    feeder(rt, 6, 20_000, 500_000, 10)?;
    feeder(rt, 6, 10_000, 100_000, 0)?;
    line(rt, 0, 1_000, 1_100, 1)?;
    generator(rt, 6, 10_000, 10_000, 10_000, 20_000, 0, 100)?;
    converter(rt, 1_000, 200)?;
    generator(rt, 10, 690, 690, 950, 18_000, 15, 90)?;
    transformer(rt, 10, 690, 690, 1_000, 6_000, 1_000)?;
    transformer(rt, 10, 690, 20_000, 1_000, 6_000, 1_000)?;
    unit(
        rt, 10, 20_000, 690, 950, 18_000, 15, 90, 690, 1_000, 6_000, 1_000,
    )?;
    unit(
        rt, 10, 20_000, 690, 950, 100_001, 15, 90, 690, 1_000, 6_000, 1_000,
    )?;
    unit(
        rt, 10, 20_000, 690, 950, 18_000, 15, 90, 690, 1_000, 30_001, 1_000,
    )?;
    unit(
        rt, 10, 20_000, 690, 950, 18_000, 15, 90, 690, 1_000, 6_000, 6_001,
    )?;
    transformer(rt, 10, 690, 690, 1_000, 30_001, 1_000)?;
    transformer(rt, 10, 690, 690, 1_000, 6_000, 6_001)
}

pub(crate) fn all(rt: &impl Print) -> io::Result<()> {
    lines(rt)?;
    voltages(rt)?;
    all_units(rt)?;
    step_down(rt)?;
    converters(rt)?;
    worked(rt)
}
