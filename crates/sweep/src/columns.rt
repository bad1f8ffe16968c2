// Columns: arrays with a place for each bus.
ghost use Rattle.std.specs.Prelude.{◌≡◌, min};
ghost use Rattle.tree.specs.Limits.{max_buses};
ghost use Rattle.sweep.specs.Points.{number_at, point_at};

use crate::BUSES;
use enclosure::{Complex, nothing};

// A point for each bus.
#[derive(Clone, Copy)]
pub struct Points {
    pub re: [f64; BUSES],
    pub im: [f64; BUSES],
}

// n, or the greatest number of buses for any more.
pub fn clamped(n: usize) -> usize
    ensures { result ≡ min n max_buses }
{
    if n < BUSES { n } else { BUSES }
}

// An array of numbers at any place, 0 past its end.
pub fn number_at(values: &[u32; BUSES], i: usize) -> u32
    ensures { result ≡ number_at values.now i }
{
    if i < BUSES {
        return values[i];
    }
    0
}

// Two arrays as a point at any place, nothing past their end.
pub fn point_at<'a>(re: &'a [f64; BUSES], im: &'a [f64; BUSES], i: usize) -> Complex
    ensures { result ≡ point_at re.now im.now i }
{
    if i < BUSES {
        return Complex {
            re: re[i],
            im: im[i],
        };
    }
    nothing()
}

// The number of a bus's parent.
pub(crate) fn parent_of(parents: &[u32; BUSES], b: usize) -> usize
    ensures { result ≡ number_at parents.now b }
{
    number_at(parents, b) as usize
}
