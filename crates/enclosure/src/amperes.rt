// Amperes as f64. An rms ampere and a peak ampere are two quantities, so that neither is taken for the other.
// The contracts give the f64 operation; on whole numbers up to 2^53 it is that of the whole numbers (specs/laws/WholeF64.antt).
ghost use Rattle.std.specs.Prelude.{◌≡◌};
ghost use Rattle.std.specs.Float.{binary64};
ghost use Rattle.std.specs.Float.Ieee.{add, sub, lt, le};
ghost use Rattle.enclosure.specs.Doubles.{of_whole};

use crate::whole;

// Root-mean-square amperes.
#[derive(Clone, Copy)]
pub struct Rms(pub f64);

// Peak amperes.
#[derive(Clone, Copy)]
pub struct Peak(pub f64);

pub fn rms_of(n: u64) -> Rms
    ensures { result.0 ≡ of_whole n }
{
    Rms(whole(n))
}

pub fn peak_of(n: u64) -> Peak
    ensures { result.0 ≡ of_whole n }
{
    Peak(whole(n))
}

pub fn add_rms(a: Rms, b: Rms) -> Rms
    ensures { result.0 ≡ add binary64 a.0 b.0 }
{
    Rms(a.0 + b.0)
}

pub fn add_peak(a: Peak, b: Peak) -> Peak
    ensures { result.0 ≡ add binary64 a.0 b.0 }
{
    Peak(a.0 + b.0)
}

// By how much a exceeds b.
pub fn excess_rms(a: Rms, b: Rms) -> f64
    ensures { result ≡ sub binary64 a.0 b.0 }
{
    a.0 - b.0
}

pub fn excess_peak(a: Peak, b: Peak) -> f64
    ensures { result ≡ sub binary64 a.0 b.0 }
{
    a.0 - b.0
}

pub fn exceeds_rms(a: Rms, b: Rms) -> bool
    ensures { result ≡ lt b.0 a.0 }
{
    a.0 > b.0
}

pub fn exceeds_peak(a: Peak, b: Peak) -> bool
    ensures { result ≡ lt b.0 a.0 }
{
    a.0 > b.0
}

pub fn at_most_rms(a: Rms, b: Rms) -> bool
    ensures { result ≡ le a.0 b.0 }
{
    a.0 <= b.0
}
