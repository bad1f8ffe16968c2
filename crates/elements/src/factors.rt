// The factors of documents 01 and 02, each equal to its definition; where a table ends before the argument does, to its nearest entry.
ghost use Rattle.std.specs.Prelude.{◌≡◌, max, min};
ghost use Rattle.elements.specs.Factors.{factor_c, sine_of, ux_of, split_of, peak_factor};
ghost use Rattle.elements.specs.Doubles.{fine_factor};

use crate::tables::{PEAKS, SINES, SPLITS};

// c in hundredths, by the tolerance in percent and the nominal volts.
pub fn voltage_factor(tolerance: u32, volts: u32) -> u32
    ensures { result ≡ factor_c tolerance volts }
{
    if volts <= 1_000 {
        if tolerance == 6 { 105 } else { 110 }
    } else {
        110
    }
}

// The sine in ten-thousandths, rounded up, by the power factor in hundredths; below 70 that of 70, above 100 that of 100, which is 0.
pub fn sine(p: u32) -> u32
    ensures { result ≡ sine_of (max p 70) }
{
    if p < 70 {
        return SINES[0];
    }
    if p < 100 {
        SINES[(p - 70) as usize]
    } else {
        SINES[30]
    }
}

// A transformer's ux in millionths of a percent, by uk and uR in thousandths. Sixteen bits hold document 01's range twice over, and keep the
// square within 64 bits.
pub fn reactance(uk: u16, ur: u16) -> u32
    ensures { result ≡ ux_of uk ur }
{
    if uk <= ur {
        return 0;
    }
    let k = uk as u64;
    let r = ur as u64;
    enclosure::roots::root((k * k - r * r) * 1_000_000) as u32
}

// f, X over Z in millionths, by R/X in hundredths; above 200 that of 200.
pub fn split_factor(rho: u32) -> u32
    ensures { result ≡ split_of (min rho 200) }
{
    if rho < 200 {
        SPLITS[rho as usize]
    } else {
        SPLITS[200]
    }
}

// K(i) in thousandths, by R/X in hundredths; past the end of the table its last entry.
pub fn peak_factor(i: u32) -> u32
    ensures { result ≡ peak_factor (min i 230) }
{
    if i < 230 {
        PEAKS[i as usize]
    } else {
        PEAKS[230]
    }
}

// V(p) in sixteen-thousandths, by R/X in 1,600ths: sixteen steps from an entry of the table to the next.
pub fn fine_factor(p: u32) -> u32
    ensures { result ≡ fine_factor p }
{
    let i = p / 16;
    let s = p % 16;
    (16 - s) * peak_factor(i) + s * peak_factor(i + 1)
}
