// Peak currents: the place in the peak table's steps, and the peaks of machines and of converters.
ghost use Rattle.std.specs.Prelude.{◌≡◌};
ghost use Rattle.elements.specs.Doubles.{fits_at, place_of, current_by, machine_peak_by, converter_peak_by};

use crate::factors::fine_factor;
use enclosure::{Complex, scale, upper};

// Whether p/1,600 is at most G/B of an admittance, by a margin; p stays within the table.
fn fits(y: Complex, p: u32) -> bool
    ensures { result ≡ fits_at y p }
{
    if 3680 < p {
        return false;
    }
    p as f64 * y.im + (y.re + y.im) * 0.00000095367431640625 <= 1600.0 * y.re
}

// The greatest p up to 3,680 with p/1,600 at most G/B by a margin, and 0 where there is none.
pub fn place(y: Complex) -> u32
    ensures { result ≡ place_of y }
{
    let mut low = 0u32;
    let mut step = 4096u32;
    let mut bits = 12u32;
    while bits > 0 {
        bits -= 1;
        step = step / 2;
        let next = low + step;
        if fits(y, next) {
            low = next;
        }
    }
    low
}

// √3 times the fault current as a point: c·Un·Y, c in hundredths.
pub fn current(y: Complex, c: u32, volts: u32) -> Complex
    ensures { result ≡ current_by c volts y }
{
    scale(scale(y, volts, 1), c, 100)
}

// The machines' peak in whole amperes, from the current before it is rounded.
pub fn machine_peak(y: Complex, c: u32, volts: u32) -> u64
    ensures { result ≡ machine_peak_by c volts y }
{
    let v = fine_factor(place(y));
    upper(scale(current(y, c, volts), v, 16_000), 2, 3)
}

// The converters' peak in whole amperes.
pub fn converter_peak(x: Complex) -> u64
    ensures { result ≡ converter_peak_by x }
{
    upper(x, 2, 1)
}
