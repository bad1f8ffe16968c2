// What the kind of a source decides: the ranges of its fields, its rated volts, its admittance or its current. Every other module asks
// here.
ghost use Rattle.std.specs.Prelude.{◌≡◌, ◌^◌, ◌≤◌, min};
ghost use Rattle.network.specs.Records.{all};
ghost use Rattle.network.specs.SourceKinds.{is_feeder, is_converter, is_unit, has_generator, source_kind_ok, feeder_tests, generator_tests, motor_tests, converter_tests, unit_tests, ranges_ok, no_transformer, fields_ok, is_rated, machine_volts};
ghost use Rattle.network.specs.RoundedSourceKinds.{unit_impedance_by, admittance_by, supplied_by, volts_seen, kva_seen};

use crate::study::Source;
use elements::impedances::{converter, feeder, generator, motor, station_unit};
use enclosure::{Complex, inverse, nothing};

pub(crate) fn is_feeder(p: Source) -> bool
    ensures { result ≡ is_feeder p }
{
    p.kind == 1
}

pub fn is_converter(p: Source) -> bool
    ensures { result ≡ is_converter p }
{
    p.kind == 4
}

pub(crate) fn is_unit(p: Source) -> bool
    ensures { result ≡ is_unit p }
{
    p.kind == 5
}

// Whether it has a generator: it is one, or a unit.
pub fn has_generator(p: Source) -> bool
    ensures { result ≡ has_generator p }
{
    (p.kind == 2) | (p.kind == 5)
}

// Whether it is a machine that has rated volts at its bus: a generator, a motor or a unit.
pub(crate) fn is_rated(p: Source) -> bool
    ensures { result ≡ is_rated p }
{
    (p.kind == 2) | (p.kind == 3) | (p.kind == 5)
}

// The rated volts of such a machine at its bus; of a unit those of its transformer's high side.
pub(crate) fn machine_volts(p: Source) -> u32
    ensures { result ≡ machine_volts p }
{
    if is_unit(p) { p.high } else { p.f1 }
}

// Ground 10: source kind.
pub(crate) fn kind_ok(p: Source) -> bool
    ensures { result ≡ source_kind_ok p }
{
    (1 <= p.kind) & (p.kind <= 5)
}

// Ground 12 of a feeder: kVA, R/X, 0, 0, 0.
fn feeder_ok(p: Source) -> bool
    ensures { result ≡ all (feeder_tests p) }
{
    ((1000 <= p.f1) & (p.f1 <= 100000000)) & (p.f2 <= 200) & (p.f3 == 0) & (p.f4 == 0) & (p.f5 == 0)
}

// Ground 12 of a generator: kVA, xd, R/X, power factor. Its rated volts have ground 13.
fn generator_ok(p: Source) -> bool
    ensures { result ≡ all (generator_tests p) }
{
    ((10 <= p.f2) & (p.f2 <= 1000000))
        & ((1000 <= p.f3) & (p.f3 <= 100000))
        & (p.f4 <= 200)
        & ((70 <= p.f5) & (p.f5 <= 100))
}

// Ground 12 of a motor: kVA, starting ratio, R/X, 0. Its rated volts have ground 13.
fn motor_ok(p: Source) -> bool
    ensures { result ≡ all (motor_tests p) }
{
    ((1 <= p.f2) & (p.f2 <= 100000)) & ((10 <= p.f3) & (p.f3 <= 100)) & (p.f4 <= 200) & (p.f5 == 0)
}

// Ground 12 of a converter: rated current, k, 0, 0, 0.
fn converter_ok(p: Source) -> bool
    ensures { result ≡ all (converter_tests p) }
{
    ((1 <= p.f1) & (p.f1 <= 100000))
        & ((100 <= p.f2) & (p.f2 <= 300))
        & (p.f3 == 0)
        & (p.f4 == 0)
        & (p.f5 == 0)
}

// Ground 12 of a unit: kVA, xd, R/X and power factor of its generator; low volts, kVA, uk and uR of its transformer. Generator volts and
// high volts have grounds 32 and 13.
fn unit_ok(p: Source) -> bool
    ensures { result ≡ all (unit_tests p) }
{
    ((10 <= p.f2) & (p.f2 <= 1000000))
        & ((1000 <= p.f3) & (p.f3 <= 100000))
        & (p.f4 <= 200)
        & ((70 <= p.f5) & (p.f5 <= 100))
        & ((90 <= p.low) & (p.low <= 462000))
        & ((10 <= p.transformer_kva) & (p.transformer_kva <= 1000000))
        & ((100 <= p.uk) & (p.uk <= 30000))
        & (p.ur < p.uk)
}

// Ground 12: the ranges of the fields, by the kind.
fn ranges_ok(p: Source) -> bool
    ensures { result ≡ ranges_ok p }
{
    let kind = p.kind;
    match kind {
        1 => feeder_ok(p),
        2 => generator_ok(p),
        3 => motor_ok(p),
        5 => unit_ok(p),
        _ => converter_ok(p),
    }
}

// Whether it has no field of a transformer.
fn no_transformer(p: Source) -> bool
    ensures { result ≡ no_transformer p }
{
    (p.low == 0) & (p.high == 0) & (p.transformer_kva == 0) & (p.uk == 0) & (p.ur == 0)
}

// Ground 12: the fields that its kind has are in range, and any other is 0.
pub(crate) fn fields_ok(p: Source) -> bool
    ensures { result ≡ fields_ok p }
{
    ranges_ok(p) & (is_unit(p) | no_transformer(p))
}

// The impedance of a unit at a bus of these nominal volts.
fn unit_impedance(tolerance: u32, volts: u32, p: Source) -> Complex
    ensures { result ≡ unit_impedance_by tolerance volts p }
{
    station_unit(
        tolerance,
        volts,
        p.f1,
        p.f2,
        p.f3,
        p.f4,
        p.f5,
        p.low,
        p.transformer_kva,
        p.uk,
        p.ur,
    )
}

// The admittance of a machine at a bus of these nominal volts.
pub fn machine_admittance(tolerance: u32, volts: u32, p: Source) -> Complex
    ensures { result ≡ admittance_by tolerance volts p }
{
    let kind = p.kind;
    match kind {
        1 => inverse(feeder(tolerance, volts, p.f1, p.f2)),
        2 => inverse(generator(tolerance, volts, p.f1, p.f2, p.f3, p.f4, p.f5)),
        3 => inverse(motor(p.f1, p.f2, p.f3, p.f4)),
        5 => inverse(unit_impedance(tolerance, volts, p)),
        _ => nothing(),
    }
}

// The current that a converter supplies.
pub(crate) fn converter_current(p: Source) -> Complex
    ensures { result ≡ supplied_by p }
{
    converter(p.f1, p.f2)
}

// The lesser of it and 1,000,000, above which an accepted unit has none of the fields that this is asked of.
fn at_most_a_million(x: u32) -> u64
    ensures { (result ≡ min x 1000000) × (result ≤ 1000000) }
{
    if x < 1_000_000 { x as u64 } else { 1_000_000 }
}

// By these volts, over `kva_seen`, a generator's current is reckoned at the bus of its source: its rated volts, of a unit times its high
// volts.
pub fn volts_seen(p: Source) -> u64
    ensures { (result ≡ volts_seen p) × (result ≤ 2 ^ 40) }
{
    if is_unit(p) {
        return at_most_a_million(p.f1) * at_most_a_million(p.high);
    }
    p.f1 as u64
}

// And by this power: its kVA, of a unit times its low volts.
pub fn kva_seen(p: Source) -> u64
    ensures { (result ≡ kva_seen p) × (result ≤ 2 ^ 40) }
{
    if is_unit(p) {
        return at_most_a_million(p.f2) * at_most_a_million(p.low);
    }
    p.f2 as u64
}
