// What one source adds to the breaking current of a bus, in whole steps of 1/4,096 A, and a generator's two numbers of the table.
ghost use Rattle.std.specs.Prelude.{◌≡◌, ◌*◌, ◌^◌, ◌≤◌, ◌<◌};
ghost use Rattle.elements.specs.Factors.{factor_c};
ghost use Rattle.tree.specs.Ways.{drive_by, strength_by, share_steps, rated_steps};
ghost use Rattle.breaking.specs.Doubles.{weighed, amperes_up, generator_part, part_by};

use elements::factors::voltage_factor;
use elements::mu::mu_of;
use enclosure::Complex;
use enclosure::roots::{root_fine, under_root};
use network::study::Source;
use network::{has_generator, is_converter, kva_seen, volts_seen};

// A source's two numbers of the table, and its steps in the sum.
#[derive(Clone, Copy)]
pub struct Part {
    pub lower: f64,
    pub upper: f64,
    pub steps: u64,
}

// Whole amperes not below so many steps.
pub(crate) fn amperes_up(steps: u64) -> u64
    requires { steps ≤ 2 ^ 62 }
    ensures { result ≡ amperes_up steps }
{
    (steps + 4095) / 4096
}

// 2^24·(c·Un)²/3 of the queried bus, by its nominal volts: a root of it counts in steps of 1/4,096 A.
pub(crate) fn drive(tolerance: u32, volts: u32) -> f64
    ensures { result ≡ drive_by (factor_c tolerance volts * volts) }
{
    let c = voltage_factor(tolerance, volts) as u64;
    let v = (c * (volts as u64)) as f64;
    // 4,096² over 3·100², since v is in hundredths
    let over: u32 = 16777216;
    let under: u32 = 30000;
    v * v * (over as f64 / under as f64)
}

// A machine's strength: that times the square of its admittance.
pub(crate) fn strength(drive: f64, y: Complex) -> f64
    ensures { result ≡ strength_by drive y }
{
    drive * (y.re * y.re + y.im * y.im)
}

// A share in steps, by the machine's strength, and the rated ratio and the divider of the way to it.
fn share_steps(k: f64, ratio: f64, divider: f64) -> u64
    ensures steps { result ≡ share_steps k ratio divider }
    ensures few { result < 2 ^ 53 }
{
    root_fine(k * (ratio * ratio * (ratio * ratio)) * divider)
}

// A generator's share at its terminals, in steps of 1/40,960 of its rated current.
fn rated_steps(k: f64, ratio: f64, divider: f64, volts: u64, kva: u64) -> u64
    requires volts_bound { volts ≤ 2 ^ 40 }
    requires kva_bound { kva ≤ 2 ^ 40 }
    ensures { result ≡ rated_steps k ratio divider volts kva }
{
    let hundred_kva = 100 * kva;
    let t = ratio * (volts as f64 / hundred_kva as f64);
    let three: u32 = 3;
    let one: u32 = 1;
    root_fine(k * (t * t) * (three as f64 / one as f64) * divider)
}

// Steps weighed by thousandths, rounded up.
fn weigh(w: u32, steps: u64) -> u64
    requires steps_bound { steps ≤ 2 ^ 53 }
    requires w_bound { w ≤ 1000 }
    ensures { result ≡ weighed w steps }
{
    ((w as u64) * steps + 999) / 1000
}

// A generator: whole bounds of its share, and its steps by μ.
fn generator_part(delay: u32, k: f64, ratio: f64, divider: f64, p: Source) -> Part
    ensures { result ≡ generator_part delay k ratio divider p }
{
    let r = share_steps(k, ratio, divider);
    let q = rated_steps(k, ratio, divider, volts_seen(p), kva_seen(p));
    let lower = under_root(r) / 4096;
    let upper = amperes_up(r + 1);
    Part {
        lower: lower as f64,
        upper: upper as f64,
        steps: weigh(mu_of(delay, q), r + 1),
    }
}

// What a source adds, by its kind: a converter adds nothing here, its current is added in full.
pub(crate) fn part_by(delay: u32, k: f64, ratio: f64, divider: f64, p: Source) -> Part
    ensures { result ≡ part_by delay k ratio divider p }
{
    if has_generator(p) {
        return generator_part(delay, k, ratio, divider, p);
    }
    if is_converter(p) {
        return Part {
            lower: 0.0,
            upper: 0.0,
            steps: 0,
        };
    }
    let steps = share_steps(k, ratio, divider) + 1;
    Part {
        lower: 0.0,
        upper: 0.0,
        steps,
    }
}
