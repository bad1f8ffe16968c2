// Enclosing arithmetic: the lower crate of document 01, on which every bound rests.
// Points of the closed first quadrant in f64: impedances R + jX as they are, admittances G - jB as G and B.
// Each function ensures that it computes its definition in specs/Doubles.antt; how near that is to the exact operation is proved in
// specs/laws/F64Errors.antt and specs/laws/WholeBounds.antt.
#![tactic(auto)]

pub mod amperes;
pub mod roots;

ghost use Rattle.std.specs.Prelude.{◌≡◌, ◌^◌, ◌<◌, min};
ghost use Rattle.enclosure.specs.Doubles.{of_whole, none, whole_point, added, empty, inverted, scaled, size_below, lower_of, upper_of, bounds_of};

#[derive(Clone, Copy)]
pub struct Complex {
    pub re: f64,
    pub im: f64,
}

// Whole numbers on both sides of a size.
#[derive(Clone, Copy)]
pub struct Bounds {
    pub lower: u64,
    pub upper: u64,
}

// No admittance, no current.
pub fn nothing() -> Complex
    ensures { result ≡ none }
{
    Complex { re: 0.0, im: 0.0 }
}

// Two whole numbers as a point.
pub fn of(re: u32, im: u32) -> Complex
    ensures { result ≡ whole_point re im }
{
    Complex {
        re: re as f64,
        im: im as f64,
    }
}

pub fn add(x: Complex, y: Complex) -> Complex
    ensures { result ≡ added x y }
{
    Complex {
        re: x.re + y.re,
        im: x.im + y.im,
    }
}

pub fn is_nothing(z: Complex) -> bool
    ensures { result ≡ empty z }
{
    z.re + z.im == 0.0
}

// One over z, each step rounded. Nothing, and what is so small that its square is 0 in f64, is given back as it is.
pub fn inverse(z: Complex) -> Complex
    ensures { result ≡ inverted z }
{
    let n = z.re * z.re + z.im * z.im;
    if n == 0.0 {
        z
    } else {
        Complex {
            re: z.re / n,
            im: z.im / n,
        }
    }
}

// p/q of z.
pub fn scale(z: Complex, p: u32, q: u32) -> Complex
    ensures { result ≡ scaled p q z }
{
    let t = p as f64 / q as f64;
    Complex {
        re: z.re * t,
        im: z.im * t,
    }
}

// n, or 2^53 for any more.
fn capped(n: u64) -> u64
    ensures { result ≡ min n (2 ^ 53) }
{
    if n < 9007199254740992 {
        n
    } else {
        9007199254740992
    }
}

// A whole number as f64, nothing lost; 2^53 for any more.
pub fn whole(n: u64) -> f64
    ensures { result ≡ of_whole n }
{
    capped(n) as f64
}

// p/q of z for whole numbers past 32 bits; 2^53 stands for any more. It is near the exact multiple for the pairs that are `Wide`
// (specs/laws/F64Range.antt).
pub fn scale_wide(z: Complex, p: u64, q: u64) -> Complex
    ensures { result ≡ scaled (min p (2 ^ 53)) (min q (2 ^ 53)) z }
{
    let ratio = whole(p) / whole(q);
    Complex {
        re: z.re * ratio,
        im: z.im * ratio,
    }
}

// The greatest whole number whose square is at most margin/2^30 times p/q of |z|², as f64 calculates it.
fn size_below(z: Complex, p: u16, q: u16, margin: u32) -> u64
    ensures { result ≡ size_below margin p q z }
{
    let over = wide(p) * (margin as u64);
    let under = wide(q) * 1073741824;
    let t = over as f64 / under as f64;
    roots::root_below((z.re * z.re + z.im * z.im) * t)
}

fn wide(x: u16) -> u64
    ensures { (result ≡ x) × (result < 65536) }
{
    x as u64
}

// A whole number not above √(p/q)·|z|, for sizes in range (specs/laws/WholeBounds.antt).
pub fn lower(z: Complex, p: u16, q: u16) -> u64
    ensures { result ≡ lower_of p q z }
{
    if is_nothing(z) {
        return 0;
    }
    size_below(z, p, q, 1073741823)
}

// A whole number not below √(p/q)·|z|, for sizes in range.
pub fn upper(z: Complex, p: u16, q: u16) -> u64
    ensures { result ≡ upper_of p q z }
{
    if is_nothing(z) {
        return 0;
    }
    size_below(z, p, q, 1073741825) + 1
}

// Whole numbers on both sides of √(p/q)·|z|, for sizes in range.
pub fn enclose(z: Complex, p: u16, q: u16) -> Bounds
    ensures { result ≡ bounds_of p q z }
{
    Bounds {
        lower: lower(z, p, q),
        upper: upper(z, p, q),
    }
}
