// The converters' part: each bus's current carried to bus 0, and their sum carried from there, by recursion towards bus 0.
ghost use Rattle.std.specs.Prelude.{◌≡◌, ℕ};
ghost use Rattle.enclosure.specs.Doubles.{doubles};
ghost use Rattle.tree.specs.Converters.{to_root, from_root, gathered};
ghost use Rattle.sweep.specs.Points.{point_at, column_grid};

use crate::BUSES;
use crate::columns::{number_at, parent_of, point_at};
use enclosure::{Complex, add, nothing, scale};

// A current at bus b carried to bus 0, followed while numbers fall.
fn to_root<'a>(
    parents: &'a [u32; BUSES],
    above: &'a [u32; BUSES],
    below: &'a [u32; BUSES],
    b: usize,
    x: Complex,
) -> Complex
    ensures { (n : ℕ) → result ≡ to_root doubles (column_grid n parents.now above.now below.now) b x }
{
    let parent = parent_of(parents, b);
    if parent < b {
        let up = scale(x, number_at(below, b), number_at(above, b));
        return to_root(parents, above, below, parent, up);
    }
    x
}

// A current at bus 0 carried to bus b.
pub fn from_root<'a>(
    parents: &'a [u32; BUSES],
    above: &'a [u32; BUSES],
    below: &'a [u32; BUSES],
    b: usize,
    x: Complex,
) -> Complex
    ensures { (n : ℕ) → result ≡ from_root doubles (column_grid n parents.now above.now below.now) b x }
{
    let parent = parent_of(parents, b);
    if parent < b {
        let down = from_root(parents, above, below, parent, x);
        return scale(down, number_at(above, b), number_at(below, b));
    }
    x
}

// The sum of the currents of n buses, each carried to bus 0.
pub fn gathered_at_root<'a>(
    parents: &'a [u32; BUSES],
    above: &'a [u32; BUSES],
    below: &'a [u32; BUSES],
    re: &'a [f64; BUSES],
    im: &'a [f64; BUSES],
    n: usize,
) -> Complex
    ensures { result ≡ gathered doubles (point_at re.now im.now) (column_grid n parents.now above.now below.now) n }
{
    let mut total = nothing();
    let mut i: usize = 0;
    while i < n {
        let x = to_root(parents, above, below, i, point_at(re, im, i));
        total = add(total, x);
        i += 1;
    }
    total
}
