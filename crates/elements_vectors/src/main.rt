// Prints the factors over the ranges of document 01, a line for each value: a letter, the arguments, the value.
#![tactic(auto)]

ghost use Rattle.std.specs.Prelude.{◌≤◌};

use elements::factors::{fine_factor, peak_factor, reactance, sine, split_factor, voltage_factor};
use std::io;

fn letter(rt: &impl Print, name: u8) -> io::Result<()> {
    rt.write_all(&[name])
}

fn field(rt: &impl Print, n: u32) -> io::Result<()> {
    print!(rt; ",{n}")
}

fn end(rt: &impl Print) -> io::Result<()> {
    println!(rt; "")
}

// The factor of one argument that a letter names: f, s for the sine, K, V.
fn value(name: u8, x: u32) -> u32 {
    match name {
        b'f' => split_factor(x),
        b's' => sine(x),
        b'V' => fine_factor(x),
        _ => peak_factor(x),
    }
}

fn row(rt: &impl Print, name: u8, x: u32) -> io::Result<()> {
    letter(rt, name)?;
    field(rt, x)?;
    field(rt, value(name, x))?;
    end(rt)
}

fn rows(rt: &impl Print, name: u8, from: u32, to: u32) -> io::Result<()> {
    for x in from..to {
        row(rt, name, x)?;
    }
    Ok(())
}

fn voltage_row(rt: &impl Print, tolerance: u32, volts: u32) -> io::Result<()> {
    letter(rt, b'c')?;
    field(rt, tolerance)?;
    field(rt, volts)?;
    field(rt, voltage_factor(tolerance, volts))?;
    end(rt)
}

fn voltage_rows(rt: &impl Print, tolerance: u32) -> io::Result<()> {
    voltage_row(rt, tolerance, 100)?;
    voltage_row(rt, tolerance, 999)?;
    voltage_row(rt, tolerance, 1_000)?;
    voltage_row(rt, tolerance, 1_001)?;
    voltage_row(rt, tolerance, 420_000)
}

fn reactance_row(rt: &impl Print, uk: u16, ur: u16) -> io::Result<()> {
    letter(rt, b'u')?;
    field(rt, uk as u32)?;
    field(rt, ur as u32)?;
    field(rt, reactance(uk, ur))?;
    end(rt)
}

// ux at uk, with uR from 0 to uk - 1.
fn reactance_rows(rt: &impl Print, uk: u16) -> io::Result<()>
    requires { 1 ≤ uk }
{
    reactance_row(rt, uk, 0)?;
    reactance_row(rt, uk, uk / 8)?;
    reactance_row(rt, uk, uk / 2)?;
    reactance_row(rt, uk, uk - uk / 8)?;
    reactance_row(rt, uk, uk - 1)
}

// uk from 100 to 30,000.
fn reactance_grid(rt: &impl Print) -> io::Result<()> {
    for n in 0..24 {
        reactance_rows(rt, 100 + 1_300 * n)?;
    }
    Ok(())
}

// The least uk, where a thousandth of a percent weighs most, with every uR.
fn least_reactances(rt: &impl Print) -> io::Result<()> {
    for ur in 0..100 {
        reactance_row(rt, 100, ur)?;
    }
    Ok(())
}

// uk next above it, with five uR each.
fn low_reactances(rt: &impl Print) -> io::Result<()> {
    for uk in 101..301 {
        reactance_rows(rt, uk)?;
    }
    Ok(())
}

fn main(rt: HostRuntime) -> io::Result<()> {
    let rt = &rt;
    voltage_rows(rt, 6)?;
    voltage_rows(rt, 10)?;
    row(rt, b's', 0)?;
    row(rt, b's', 69)?;
    rows(rt, b's', 70, 101)?;
    row(rt, b's', 101)?;
    row(rt, b's', 4_294_967_295)?;
    reactance_row(rt, 6_000, 1_000)?;
    reactance_grid(rt)?;
    least_reactances(rt)?;
    low_reactances(rt)?;
    reactance_row(rt, 65_535, 0)?;
    reactance_row(rt, 65_535, 65_534)?;
    reactance_row(rt, 1_000, 6_000)?;
    rows(rt, b'f', 0, 201)?;
    row(rt, b'f', 201)?;
    row(rt, b'f', 4_294_967_295)?;
    rows(rt, b'K', 0, 231)?;
    row(rt, b'K', 231)?;
    row(rt, b'K', 4_294_967_295)?;
    rows(rt, b'V', 0, 3_681)?;
    row(rt, b'V', 3_681)?;
    row(rt, b'V', 4_294_967_295)
}
