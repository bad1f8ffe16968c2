// What a query of a closed study gives: six amperes and a verdict.
ghost use Rattle.std.specs.Prelude.{◌≡◌};
ghost use Rattle.network.specs.Network.{network};
ghost use Rattle.network.specs.Demand.{Figures, WholeAmperes, verdict_on};
ghost use Rattle.network.specs.Doubles.{verdict_of, rated_verdict};
ghost use Rattle.network.specs.Promise.{Promise};
ghost use Rattle.network.specs.NearPeaks.{NearPromise};
ghost use Rattle.network.specs.Query.{query_number, no_amperes, amperes_given, verdict_given, found_given};

use crate::board::board_of;
use crate::rows::row_at;
use crate::study::{Bus, Study, bus_total};
use enclosure::amperes::{
    Peak, Rms, add_peak, add_rms, at_most_rms, exceeds_peak, exceeds_rms, excess_peak, excess_rms,
    peak_of, rms_of,
};

// What a bus gets, in amperes: bounds of the machines' and of the converters' current, and their peaks.
#[derive(Clone, Copy)]
pub struct Amperes {
    pub lower: Rms,
    pub upper: Rms,
    pub converters_lower: Rms,
    pub converters_upper: Rms,
    pub peak: Peak,
    pub converters_peak: Peak,
}

// A bus against its ratings: within by a margin, over by an excess, or too close to tell.
#[derive(Clone, Copy)]
pub enum Verdict {
    Within(f64),
    Over(f64),
    Close,
}

// What a query gives: the number of its ground, the six amperes and the verdict.
#[derive(Clone, Copy)]
pub struct Found {
    pub number: u32,
    pub amperes: Amperes,
    pub verdict: Verdict,
}

// Six amperes against two ratings. The peak is looked at first.
fn verdict_of(a: Amperes, rating: Rms, peak_rating: Peak) -> Verdict
    ensures { result ≡ verdict_of a rating.0 peak_rating.0 }
{
    let lower = add_rms(a.lower, a.converters_lower);
    let upper = add_rms(a.upper, a.converters_upper);
    let peak = add_peak(a.peak, a.converters_peak);
    let above_peak = exceeds_peak(peak, peak_rating);
    let above_rating = exceeds_rms(lower, rating);
    if above_peak {
        return Verdict::Over(excess_peak(peak, peak_rating));
    }
    if above_rating {
        return Verdict::Over(excess_rms(lower, rating));
    }
    if at_most_rms(upper, rating) {
        return Verdict::Within(excess_rms(rating, upper));
    }
    Verdict::Close
}

// The six amperes of a bus against the ratings of its record; of whole amperes, by the clause `whole`, it is document 01's verdict.
pub fn verdict_at(bus: Bus, a: Amperes) -> Verdict
    ensures verdict { result ≡ rated_verdict bus a }
    ensures whole { (g : Figures) → WholeAmperes a g → result ≡ verdict_on g bus.rating bus.peak_rating }
{
    verdict_of(a, Rms(bus.rating as f64), Peak(bus.peak_rating as f64))
}

// A refused query.
fn refused(number: u32) -> Found
    ensures number { result.number ≡ number }
    ensures amperes { result.amperes ≡ no_amperes }
    ensures verdict { result.verdict ≡ Verdict.Close }
{
    let none = rms_of(0);
    let no_peak = peak_of(0);
    let amperes = Amperes {
        lower: none,
        upper: none,
        converters_lower: none,
        converters_upper: none,
        peak: no_peak,
        converters_peak: no_peak,
    };
    Found {
        number,
        amperes,
        verdict: Verdict::Close,
    }
}

// What a query gives. Refused: 22 not closed, 15 no such bus; then the amperes are 0 and the verdict is close.
fn given(s: Study, bus: u32) -> Found
    ensures { result ≡ found_given (network s) bus }
{
    if !s.closed {
        return refused(22);
    }
    let b = bus as usize;
    if bus_total(s) <= b {
        return refused(15);
    }
    let record = s.buses[b];
    let buses = s.buses;
    let sources = s.sources;
    let board = board_of(s.tolerance, buses, s.bus_count, sources, s.source_count);
    let amperes = row_at(
        s.tolerance,
        record.volts,
        &board.tree.parents,
        &board.tree.above,
        &board.tree.below,
        &board.up.re,
        &board.up.im,
        &board.fall.re,
        &board.fall.im,
        board.gathered,
        b,
    );
    Found {
        number: 0,
        amperes,
        verdict: verdict_at(record, amperes),
    }
}

// The six amperes of a bus, and its verdict. Refused: 22 not closed, 15 no such bus; then the amperes are 0 and the verdict is close.
// The clause `promise` is demand 3 whole, for whatever calls made the study; `near` holds the peaks nearer than demand 3 asks.
pub fn query(s: Study, bus: u32) -> Found
    ensures number { result.number ≡ query_number (network s) bus }
    ensures amperes { result.amperes ≡ amperes_given (network s) bus }
    ensures verdict { result.verdict ≡ verdict_given (network s) bus }
    ensures promise { Promise (network s) bus result }
    ensures near { NearPromise (network s) bus result }
{
    given(s, bus)
}
