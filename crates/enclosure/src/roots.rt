// Whole square roots.
ghost use Rattle.std.specs.Prelude.{◌≡◌, true};
ghost use Rattle.enclosure.specs.Exact.{root_of};
ghost use Rattle.enclosure.specs.Doubles.{root_below, root_fine, under_root};

// A number near the root of m: from m with its exponent halved, by three steps of Newton's. Nothing rests on how near it is: what is
// returned is tried first. 0 for what has no root of use here.
fn guess(m: f64) -> u64 {
    if m >= 1.0 {
        let bits = f64::to_bits(m);
        if bits < 0x7fe0_0000_0000_0000 {
            let x = f64::from_bits((bits >> 1) + 0x1ff7_a3be_a91d_9b1b);
            let y = (x + m / x) * 0.5;
            let z = (y + m / y) * 0.5;
            let w = (z + m / z) * 0.5;
            if w > -1.0 {
                if w < 18446744073709551616.0 {
                    return std::num::truncating_f64_to_u64(w);
                }
            }
        }
    }
    0
}

// Whether n is the greatest whole number whose square is at most x. It may say no of the greatest with 32 bits.
fn is_root(n: u64, x: u64) -> bool
    ensures { result ≡ true → n ≡ root_of x }
{
    if n < 4294967295 {
        if n * n <= x {
            return x < (n + 1) * (n + 1);
        }
    }
    false
}

// The greatest whole number whose square is at most x.
pub fn root(x: u64) -> u64
    ensures { result ≡ root_of x }
{
    let n = guess(std::num::nearest_u64_to_f64(x));
    if is_root(n, x) {
        return n;
    }
    if 0 < n {
        if is_root(n - 1, x) {
            return n - 1;
        }
    }
    root_by_digits(x)
}

// The same, two digits of x to the base 2 for one of the root.
fn root_by_digits(x: u64) -> u64
    ensures { result ≡ root_of x }
{
    if x == 0 {
        return 0;
    }
    let r = 2 * root_by_digits(x / 4);
    if (r + 1) * (r + 1) <= x { r + 1 } else { r }
}

// Whether n is below 2^53, its square, rounded, is at most m, and that of n + 1 is not.
fn is_root_below(n: u64, m: f64) -> bool
    ensures { result ≡ true → n ≡ root_below m }
{
    if n < 9007199254740992 {
        let a = n as f64;
        if a * a <= m {
            let b = (n + 1) as f64;
            if b * b <= m {
                return false;
            }
            return true;
        }
    }
    false
}

// The greatest whole number below 2^53 whose square, rounded, is at most m.
pub fn root_below(m: f64) -> u64
    ensures { result ≡ root_below m }
{
    let n = guess(m);
    if is_root_below(n, m) {
        return n;
    }
    if 0 < n {
        if is_root_below(n - 1, m) {
            return n - 1;
        }
    }
    root_by_bits(m)
}

// The same, bit by bit.
fn root_by_bits(m: f64) -> u64
    ensures { result ≡ root_below m }
{
    let mut low = 0u64;
    let mut step = 9007199254740992u64;
    let mut bits = 53u32;
    while bits > 0 {
        bits -= 1;
        step = step / 2;
        let next = low + step;
        let x = next as f64;
        if x * x <= m {
            low = next;
        }
    }
    low
}

// One root for both bounds of √x, with a margin that covers every rounding: √x is at most one more (specs/laws/RootBounds.antt).
pub fn root_fine(x: f64) -> u64
    ensures { result ≡ root_fine x }
{
    let over: u32 = 65537;
    let under: u32 = 65536;
    root_below(x * (over as f64 / under as f64))
}

// A whole number not above √x, by that root.
pub fn under_root(r: u64) -> u64
    ensures { result ≡ under_root r }
{
    let rest = r - r / 16384;
    if 0 < rest { rest - 1 } else { 0 }
}
