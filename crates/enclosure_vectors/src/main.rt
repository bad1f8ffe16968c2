// Vectors of enclosing arithmetic, one to a line: the operation, its inputs and its result, an f64 by its bits in hexadecimal.
// tests/check-enclosure confirms every line.
#![tactic(auto)]

mod line;

ghost use Rattle.std.specs.Prelude.{◌≤◌, ◌^◌};

use enclosure::{Complex, amperes, roots};
use line::{
    add, bits, enclose, end, inverse, is_nothing, lower, number, of, scale, scale_wide, text, upper,
};
use std::io;

// Every operation on one point.
fn operations(rt: &impl Print, z: Complex) -> io::Result<()> {
    is_nothing(rt, z)?;
    let y = inverse(rt, z)?;
    inverse(rt, y)?;
    add(rt, z, z)?;
    add(rt, z, y)?;
    scale(rt, z, 1, 1)?;
    scale(rt, z, 2, 3)?;
    scale(rt, z, 4294967295, 4294967294)?;
    scale_wide(rt, z, 110, 1999999999999)?;
    scale_wide(rt, z, 1999999999999, 110)?;
    scale_wide(rt, z, 70368744177663, 70368744177662)?;
    scale_wide(rt, z, 9007199254740993, 9007199254740991)?;
    let low = scale(rt, z, 1, 4294967295)?;
    let high = scale(rt, z, 4294967295, 1)?;
    add(rt, low, high)?;
    Ok(())
}

// The origin, both axes, equal and unequal parts.
fn whole_points(rt: &impl Print) -> io::Result<()> {
    operations(rt, of(rt, 0, 0)?)?;
    operations(rt, of(rt, 1, 0)?)?;
    operations(rt, of(rt, 0, 1)?)?;
    operations(rt, of(rt, 1, 1)?)?;
    operations(rt, of(rt, 3, 4)?)?;
    operations(rt, of(rt, 16777217, 123456789)?)?;
    operations(rt, of(rt, 1, 4294967295)?)?;
    operations(rt, of(rt, 4294967295, 1)?)?;
    operations(rt, of(rt, 4294967295, 0)?)?;
    operations(rt, of(rt, 0, 4294967295)?)?;
    operations(rt, of(rt, 4294967295, 4294967294)?)?;
    operations(rt, of(rt, 4294967295, 4294967295)?)
}

// 2^32 times z and z once more, by way of the inverse.
fn step(rt: &impl Print, z: Complex) -> io::Result<Complex> {
    let y = scale(rt, inverse(rt, z)?, 1, 4294967295)?;
    add(rt, inverse(rt, y)?, z)
}

// From z some 2^192 upwards.
fn chain(rt: &impl Print, z: Complex) -> io::Result<Complex> {
    step(rt, step(rt, step(rt, step(rt, step(rt, step(rt, z)?)?)?)?)?)
}

// Sizes about 2^200 and 2^-200, and the two together in one point.
fn far_points(rt: &impl Print) -> io::Result<()> {
    let up = chain(rt, of(rt, 3, 5)?)?;
    let along = chain(rt, of(rt, 0, 200)?)?;
    let across = chain(rt, of(rt, 200, 0)?)?;
    operations(rt, up)?;
    operations(rt, inverse(rt, up)?)?;
    operations(rt, add(rt, across, inverse(rt, along)?)?)?;
    operations(rt, add(rt, along, inverse(rt, across)?)?)?;
    operations(rt, add(rt, along, across)?)
}

// The whole bounds of one point.
fn bounds(rt: &impl Print, z: Complex) -> io::Result<()> {
    enclose(rt, z, 1, 3)?;
    enclose(rt, z, 1, 1)?;
    lower(rt, z, 1, 3)?;
    upper(rt, z, 2, 3)?;
    upper(rt, z, 2, 1)
}

// The bounds of p/q of a whole point.
fn part(rt: &impl Print, re: u32, im: u32, p: u32, q: u32) -> io::Result<()> {
    bounds(rt, enclosure::scale(enclosure::of(re, im), p, q))
}

// Sizes from 0 and 10^-6 to 1, about whole numbers.
fn small_sizes(rt: &impl Print) -> io::Result<()> {
    bounds(rt, enclosure::nothing())?;
    part(rt, 1, 0, 1, 1000000)?;
    part(rt, 0, 1, 1, 1000)?;
    part(rt, 1, 1, 1, 3)?;
    part(rt, 0, 999999999, 1, 1000000000)?;
    part(rt, 1000000000, 0, 1, 1000000000)?;
    part(rt, 1000000001, 0, 1, 1000000000)?;
    part(rt, 1, 1, 1, 1)?;
    part(rt, 3, 4, 1, 1)?;
    part(rt, 3, 4, 999999999, 1000000000)?;
    part(rt, 3, 4, 1000000001, 1000000000)
}

// |z|² about 3·n², 3·n²/2 and n²/2, so that a bound of each ratio is about the whole number n.
fn near_squares(rt: &impl Print) -> io::Result<()> {
    part(rt, 1249, 1200, 1, 1)?;
    part(rt, 1441, 961, 1, 1)?;
    part(rt, 1076, 585, 1, 1)?;
    part(rt, 962, 758, 1, 1)?;
    part(rt, 500, 500, 1, 1)?;
    part(rt, 500001, 500002, 1, 1)?;
    part(rt, 1229699, 1219778, 1, 1)?;
    part(rt, 874956, 857007, 1, 1)
}

// Sizes up to 10^14, and to 2^51.
fn large_sizes(rt: &impl Print) -> io::Result<()> {
    part(rt, 0, 1000000, 1, 1)?;
    part(rt, 600000000, 800000001, 1, 1)?;
    part(rt, 4294967295, 4294967295, 1, 1)?;
    part(rt, 1394841392, 1394821698, 1, 1)?;
    part(rt, 4294967295, 1, 7, 3)?;
    part(rt, 1000000000, 0, 1000, 1)?;
    part(rt, 1000000001, 0, 1000, 1)?;
    part(rt, 60000000, 80000000, 1000000, 1)?;
    part(rt, 60000000, 80000001, 1000000, 1)?;
    part(rt, 2147483648, 0, 1048576, 1)?;
    part(rt, 0, 2147483647, 1048576, 1)
}

fn root(rt: &impl Print, x: u64) -> io::Result<()> {
    text(rt, b"root")?;
    number(rt, x)?;
    number(rt, roots::root(x))?;
    end(rt)
}

fn whole_roots(rt: &impl Print) -> io::Result<()> {
    root(rt, 0)?;
    root(rt, 1)?;
    root(rt, 2)?;
    root(rt, 3)?;
    root(rt, 4)?;
    root(rt, 5)?;
    root(rt, 999999)?;
    root(rt, 1000000)?;
    root(rt, 1000001)?;
    root(rt, 4294967295)?;
    root(rt, 4294967296)?;
    root(rt, 9007199254740992)?;
    root(rt, 9223372036854775808)?;
    root(rt, 18446744065119617024)?;
    root(rt, 18446744065119617025)?;
    root(rt, 18446744065119617026)?;
    root(rt, 18446744073709551615)
}

fn root_below(rt: &impl Print, m: f64) -> io::Result<()> {
    text(rt, b"root_below")?;
    bits(rt, m)?;
    number(rt, roots::root_below(m))?;
    end(rt)
}

fn float_roots(rt: &impl Print) -> io::Result<()> {
    root_below(rt, 0.0)?;
    root_below(rt, 0.5)?;
    root_below(rt, 0.9999999999999999)?;
    root_below(rt, 1.0)?;
    root_below(rt, 2.0)?;
    root_below(rt, 3.0)?;
    root_below(rt, 3.9999999999999996)?;
    root_below(rt, 4.0)?;
    root_below(rt, 4294967295.0)?;
    root_below(rt, 9007199254740992.0)?;
    root_below(rt, 9223372036854775808.0)?;
    root_below(rt, 18446744065119617024.0)?;
    root_below(rt, 18446744073709551616.0)?;
    root_below(rt, 20282409603651670423947251286016.0)?;
    root_below(rt, 81129638414606655000000000000000.0)?;
    root_below(rt, 81129638414606660000000000000000.0)?;
    root_below(rt, 1.0 / 0.0)
}

fn rms(rt: &impl Print, a: u64, b: u64) -> io::Result<()>
    requires { (a ≤ 2 ^ 53) × (b ≤ 2 ^ 53) }
{
    let x = amperes::rms_of(a);
    let y = amperes::rms_of(b);
    line::pair(rt, b"add_rms", a, b)?;
    bits(rt, amperes::add_rms(x, y).0)?;
    end(rt)?;
    line::pair(rt, b"excess_rms", a, b)?;
    bits(rt, amperes::excess_rms(x, y))?;
    end(rt)?;
    line::pair(rt, b"exceeds_rms", a, b)?;
    number(rt, amperes::exceeds_rms(x, y) as u64)?;
    end(rt)
}

fn peak(rt: &impl Print, a: u64, b: u64) -> io::Result<()>
    requires { (a ≤ 2 ^ 53) × (b ≤ 2 ^ 53) }
{
    let x = amperes::peak_of(a);
    let y = amperes::peak_of(b);
    line::pair(rt, b"add_peak", a, b)?;
    bits(rt, amperes::add_peak(x, y).0)?;
    end(rt)?;
    line::pair(rt, b"excess_peak", a, b)?;
    bits(rt, amperes::excess_peak(x, y))?;
    end(rt)?;
    line::pair(rt, b"exceeds_peak", a, b)?;
    number(rt, amperes::exceeds_peak(x, y) as u64)?;
    end(rt)
}

// a as rms and as peak amperes, and against each other figure.
fn against(rt: &impl Print, a: u64) -> io::Result<()>
    requires { a ≤ 2 ^ 53 }
{
    text(rt, b"whole")?;
    number(rt, a)?;
    bits(rt, enclosure::whole(a))?;
    end(rt)?;
    text(rt, b"rms_of")?;
    number(rt, a)?;
    bits(rt, amperes::rms_of(a).0)?;
    end(rt)?;
    text(rt, b"peak_of")?;
    number(rt, a)?;
    bits(rt, amperes::peak_of(a).0)?;
    end(rt)?;
    rms(rt, a, 0)?;
    rms(rt, a, 1)?;
    rms(rt, a, 4503599627370496)?;
    rms(rt, a, 9007199254740991)?;
    peak(rt, a, 0)?;
    peak(rt, a, 1)?;
    peak(rt, a, 4503599627370496)?;
    peak(rt, a, 9007199254740991)
}

fn main(rt: HostRuntime) -> io::Result<()> {
    let rt = &rt;
    line::nothing(rt)?;
    whole_points(rt)?;
    far_points(rt)?;
    small_sizes(rt)?;
    near_squares(rt)?;
    large_sizes(rt)?;
    whole_roots(rt)?;
    float_roots(rt)?;
    against(rt, 0)?;
    against(rt, 1)?;
    against(rt, 4503599627370496)?;
    against(rt, 9007199254740991)
}
