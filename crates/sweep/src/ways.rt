// Ways between two buses: what of a voltage is left behind each branch, and products over the branches between the two.
ghost use Rattle.std.specs.Prelude.{◌≡◌, min};
ghost use Rattle.enclosure.specs.Doubles.{floored};
ghost use Rattle.tree.specs.Limits.{max_buses};
ghost use Rattle.tree.specs.Ways.{divider_by, over_way};
ghost use Rattle.sweep.specs.Points.{number_at, point_at};
ghost use Rattle.sweep.specs.Crossings.{factor_at, crossing_at, crossings_of, reach_of};

use crate::BUSES;
use crate::columns::{clamped, number_at, parent_of, point_at};
use crate::sweeps::referred;
use enclosure::{Complex, add, inverse, is_nothing};

// The bits of 2^-120: no product of dividers falls below it.
const FAINTEST: u64 = 0x3870_0000_0000_0000;

// Of one branch, for a way over it towards bus 0 (up) or away from bus 0 (down): the square of the part of a voltage that is left behind it,
// and the rated ratio by which a current is carried back against the way.
#[derive(Clone, Copy)]
pub struct Crossing {
    pub divider_up: f64,
    pub divider_down: f64,
    pub ratio_up: f64,
    pub ratio_down: f64,
}

// The same of the branch of each bus.
#[derive(Clone, Copy)]
pub struct Crossings {
    pub divider_up: [f64; BUSES],
    pub divider_down: [f64; BUSES],
    pub ratio_up: [f64; BUSES],
    pub ratio_down: [f64; BUSES],
}

// From one bus to each bus: the product of the dividers on the way, and that of the rated ratios by which a current there is carried back.
#[derive(Clone, Copy)]
pub struct Reach {
    pub dividers: [f64; BUSES],
    pub ratios: [f64; BUSES],
}

// An array of factors at any place, 1 past its end.
pub fn factor_at(values: &[f64; BUSES], i: usize) -> f64
    ensures { result ≡ factor_at values.now i }
{
    if i < BUSES {
        return values[i];
    }
    1.0
}

// The square of |x|/|z + x|, 1 where x is nothing.
fn divider(z: Complex, x: Complex) -> f64
    ensures { result ≡ divider_by z x }
{
    if is_nothing(x) {
        return 1.0;
    }
    let sum = add(z, x);
    (x.re * x.re + x.im * x.im) / (sum.re * sum.re + sum.im * sum.im)
}

// x·y, and no less than `least`.
fn floored(least: f64, x: f64, y: f64) -> f64
    ensures { result ≡ floored least x y }
{
    let product = x * y;
    if product <= least { least } else { product }
}

// The branch of bus i: behind it lies what is seen at its parent without it, `down`, or at i without its parent, `up`.
fn crossing_at<'a>(
    above: &'a [u32; BUSES],
    below: &'a [u32; BUSES],
    z: Complex,
    down: Complex,
    up: Complex,
    i: usize,
) -> Crossing
    ensures { result ≡ crossing_at (number_at above.now i) (number_at below.now i) z down up }
{
    let a = number_at(above, i);
    let b = number_at(below, i);
    let parent_side = referred(inverse(down), b, a);
    Crossing {
        divider_up: divider(z, parent_side),
        divider_down: divider(z, inverse(up)),
        ratio_up: a as f64 / b as f64,
        ratio_down: b as f64 / a as f64,
    }
}

// The branches of n buses, by both sweeps.
pub fn crossings_of<'a>(
    above: &'a [u32; BUSES],
    below: &'a [u32; BUSES],
    z_re: &'a [f64; BUSES],
    z_im: &'a [f64; BUSES],
    down_re: &'a [f64; BUSES],
    down_im: &'a [f64; BUSES],
    up_re: &'a [f64; BUSES],
    up_im: &'a [f64; BUSES],
    n: usize,
) -> Crossings
    ensures { result ≡ crossings_of (number_at above.now) (number_at below.now) (point_at z_re.now z_im.now) (point_at down_re.now down_im.now) (point_at up_re.now up_im.now) (min n max_buses) }
{
    let mut divider_up = [1.0; BUSES];
    let mut divider_down = [1.0; BUSES];
    let mut ratio_up = [1.0; BUSES];
    let mut ratio_down = [1.0; BUSES];
    let m = clamped(n);
    let mut i = 0;
    while i < m {
        let z = point_at(z_re, z_im, i);
        let down = point_at(down_re, down_im, i);
        let up = point_at(up_re, up_im, i);
        let c = crossing_at(above, below, z, down, up, i);
        divider_up[i] = c.divider_up;
        divider_down[i] = c.divider_down;
        ratio_up[i] = c.ratio_up;
        ratio_down[i] = c.ratio_down;
        i += 1;
    }
    Crossings {
        divider_up,
        divider_down,
        ratio_up,
        ratio_down,
    }
}

// A product over the branches between b and j, no factor taking it below `least`: of the two bus numbers the greater goes to its parent.
// A bus whose parent has no smaller number ends it.
fn over_way<'a>(
    parents: &'a [u32; BUSES],
    up: &'a [f64; BUSES],
    down: &'a [f64; BUSES],
    least: f64,
    b: usize,
    j: usize,
) -> f64
    ensures { result ≡ over_way (number_at parents.now) (factor_at up.now) (factor_at down.now) least b j }
{
    if b < j {
        let p = parent_of(parents, j);
        if p < j {
            let rest = over_way(parents, up, down, least, b, p);
            return floored(least, rest, factor_at(down, j));
        }
        return 1.0;
    }
    if j < b {
        let p = parent_of(parents, b);
        if p < b {
            let rest = over_way(parents, up, down, least, p, j);
            return floored(least, rest, factor_at(up, b));
        }
    }
    1.0
}

// From bus b to each of n buses.
pub fn reach_of<'a>(
    parents: &'a [u32; BUSES],
    divider_up: &'a [f64; BUSES],
    divider_down: &'a [f64; BUSES],
    ratio_up: &'a [f64; BUSES],
    ratio_down: &'a [f64; BUSES],
    b: usize,
    n: usize,
) -> Reach
    ensures { result ≡ reach_of (number_at parents.now) (factor_at divider_up.now) (factor_at divider_down.now) (factor_at ratio_up.now) (factor_at ratio_down.now) b (min n max_buses) }
{
    let least = f64::from_bits(FAINTEST);
    let mut dividers = [1.0; BUSES];
    let mut ratios = [1.0; BUSES];
    let m = clamped(n);
    let mut j = 0;
    while j < m {
        dividers[j] = over_way(parents, divider_up, divider_down, least, b, j);
        ratios[j] = over_way(parents, ratio_up, ratio_down, 0.0, b, j);
        j += 1;
    }
    Reach { dividers, ratios }
}
