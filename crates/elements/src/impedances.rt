// The element impedances in f64, in ohms. Each equals its definition in specs/Doubles.antt for every argument; how near that is
// to the exact impedance is proved in specs/laws/ImpedanceErrors.antt.
ghost use Rattle.std.specs.Prelude.{◌≡◌, ◌+◌, ◌*◌, max};
ghost use Rattle.elements.specs.Factors.{sine_of};
ghost use Rattle.elements.specs.Impedance.{apart};
ghost use Rattle.elements.specs.Doubles.{line_by, transformer_by, split_by, feeder_by, motor_by, generator_by, station_unit_by, converter_by};

use crate::factors::{reactance, sine, split_factor, voltage_factor};
use enclosure::{Complex, add, nothing, of, scale, scale_wide};

// r and x in micro-ohms per metre.
pub fn line(r: u32, x: u32, metres: u32, circuits: u32) -> Complex
    ensures { result ≡ line_by r x metres circuits }
{
    scale(scale(of(r, x), metres, circuits), 1, 1_000_000)
}

// On the bus's own side; `lower` is the lower of the two nominal voltages. Nothing where uk is past its range or uR above uk, which no
// accepted record has.
pub fn transformer(tolerance: u32, lower: u32, own: u32, kva: u32, uk: u32, ur: u32) -> Complex
    ensures { result ≡ transformer_by tolerance lower own kva uk ur }
{
    if 30_000 < uk {
        return nothing();
    }
    if uk < ur {
        return nothing();
    }
    let ux = reactance(uk as u16, ur as u16);
    let c = voltage_factor(tolerance, lower);
    let z = scale(scale(of(1_000 * ur, ux), own, kva), own, 100_000_000);
    scale(z, 9_500 * c, 1_000_000_000 + 6 * ux)
}

// R and X of an impedance of 10^8 ohms whose R/X is rho hundredths; nothing above 200, which no accepted record has.
fn split(rho: u32) -> Complex
    ensures { result ≡ split_by rho }
{
    if 200 < rho {
        return nothing();
    }
    let f = split_factor(rho);
    of(f * rho, f * 100)
}

pub fn feeder(tolerance: u32, volts: u32, kva: u32, rho: u32) -> Complex
    ensures { result ≡ feeder_by tolerance volts kva rho }
{
    let z = scale(scale(split(rho), volts, kva), volts, 100_000);
    scale(z, voltage_factor(tolerance, volts), 100_000_000)
}

pub fn motor(rated: u32, kva: u32, ratio: u32, rho: u32) -> Complex
    ensures { result ≡ motor_by rated kva ratio rho }
{
    let z = scale(scale(split(rho), rated, kva), rated, ratio);
    scale(scale(z, 1, 100_000), 1, 100_000)
}

pub fn generator(
    tolerance: u32,
    volts: u32,
    rated: u32,
    kva: u32,
    xd: u32,
    rho: u32,
    power_factor: u32,
) -> Complex
    ensures { result ≡ generator_by tolerance volts rated kva xd rho power_factor }
{
    if 100_000 < xd {
        return nothing();
    }
    if 200 < rho {
        return nothing();
    }
    let z = scale(scale(of(xd * rho, xd * 100), rated, kva), volts, 1_000);
    let c = voltage_factor(tolerance, volts);
    scale(z, c, 1_000_000_000 + xd * sine(power_factor))
}

// The difference by size.
fn difference(a: u64, b: u64) -> u64
    ensures { result ≡ apart a b }
{
    if a < b { b - a } else { a - b }
}

// 1 + |xd - xT|·sin in 10^-12, what K_S is divided by.
fn saturation(xd: u32, ux: u32, power_factor: u32) -> u64
    ensures { result ≡ 1000000000000 + apart (1000 * xd) ux * sine_of (max power_factor 70) }
{
    let d = difference(1_000 * (xd as u64), ux as u64);
    1_000_000_000_000 + d * (sine(power_factor) as u64)
}

// A generator and its own transformer, seen at a bus of these nominal volts on the transformer's high side. The high volts cancel.
// Nothing where xd or uk is past its range or uR above uk.
pub fn station_unit(
    tolerance: u32,
    volts: u32,
    rated: u32,
    kva: u32,
    xd: u32,
    rho: u32,
    power_factor: u32,
    low: u32,
    transformer_kva: u32,
    uk: u32,
    ur: u32,
) -> Complex
    ensures { result ≡ station_unit_by tolerance volts rated kva xd rho power_factor low transformer_kva uk ur }
{
    if 100_000 < xd {
        return nothing();
    }
    if 30_000 < uk {
        return nothing();
    }
    if uk < ur {
        return nothing();
    }
    let ux = reactance(uk as u16, ur as u16);
    let generator_part = scale(scale(of(rho, 100), 10 * xd, 1), transformer_kva, kva);
    let transformer_part = scale(scale(of(1_000 * ur, ux), low, rated), low, rated);
    let parts = add(generator_part, transformer_part);
    let z = scale(scale(parts, volts, transformer_kva), volts, 10);
    let c = voltage_factor(tolerance, volts) as u64;
    scale_wide(z, c, saturation(xd, ux, power_factor))
}

// A converter's current in amperes, on the real axis.
pub fn converter(tenths: u32, k: u32) -> Complex
    ensures { result ≡ converter_by tenths k }
{
    scale(of(tenths, 0), k, 1_000)
}
