// The calls on a study: it is started with a voltage tolerance, and bus and source records are added one by one; sources are withdrawn and
// replaced by their places; it is closed and reopened.
// Every call is total: it carries the number of the ground on which it was refused, 0 where it was accepted.
ghost use Rattle.std.specs.Prelude.{◌≡◌, true, ltb, length};
ghost use Rattle.tree.specs.Limits.{max_sources};
ghost use Rattle.network.specs.declared.study.Study.{Study};
ghost use Rattle.network.specs.Network.{network, bus_at};
ghost use Rattle.network.specs.Grounds.{start_number, start_network, bus_number, after_bus, source_number, after_source, place_ok, withdraw_number, after_withdraw, replace_number, after_replace, close_number, after_close, reopen_number, after_reopen};

use crate::bus_grounds::bus_record_number;
use crate::source_grounds::source_record_number;
use crate::study::{BUSES, Bus, SOURCES, Source, Study, clamped_sources, empty_study, place_in};

// What a call gives: the number of its ground and the study after it.
#[derive(Clone, Copy)]
pub struct Answer {
    pub number: u32,
    pub study: Study,
}

// A study of this tolerance. Refused: 1 where it is not 6 or 10; then the study has tolerance 6.
pub fn start(tolerance: u32) -> Answer
    ensures number { result.number ≡ start_number tolerance }
    ensures network { network result.study ≡ start_network tolerance }
{
    if (tolerance == 6) | (tolerance == 10) {
        let study = empty_study(tolerance);
        return Answer { number: 0, study };
    }
    let study = empty_study(6);
    Answer { number: 1, study }
}

// The ground on which a bus record is refused, 0 where it is accepted: by whether the study is closed, its buses, and how many it counts.
// It is tried at the next place of the array. The study itself is not handed on, since that copies it.
pub(crate) fn bus_number(closed: bool, buses: [Bus; BUSES], n: usize, b: Bus) -> u32
    ensures { (s : Study) → s.closed ≡ closed → s.buses ≡ buses → s.bus_count ≡ n → result ≡ bus_number (network s) b }
{
    if closed {
        return 21;
    }
    if BUSES <= n {
        return 23;
    }
    let mut next = buses;
    next[n] = b;
    bus_record_number(next, n)
}

// The study with a bus more. Refused: 21 closed, 23 no room, 2 to 9 by the record.
pub fn add_bus(s: Study, b: Bus) -> Answer
    ensures number { result.number ≡ bus_number (network s) b }
    ensures kept { (result.number ≡ 0 → ⊥) → result.study ≡ s }
    ensures network { network result.study ≡ after_bus (network s) b }
{
    let buses = s.buses;
    let bus_ground = bus_number(s.closed, buses, s.bus_count, b);
    if bus_ground != 0 {
        return Answer {
            number: bus_ground,
            study: s,
        };
    }
    let n = s.bus_count;
    let mut next = s;
    next.buses[n] = b;
    next.bus_count = n + 1;
    Answer {
        number: bus_ground,
        study: next,
    }
}

// The same for a source record: by whether the study is closed, how many sources it counts, whether the source's bus is there, and that
// bus's record, any one where it is not there.
pub(crate) fn source_number(closed: bool, n: usize, there: bool, b: Bus, p: Source) -> u32
    ensures { (s : Study) → s.closed ≡ closed → s.source_count ≡ n → length s.sources ≡ max_sources → ltb p.bus (length (network s).buses) ≡ there → (there ≡ true → bus_at (network s).buses p.bus ≡ b) → result ≡ source_number (network s) p }
{
    if closed {
        return 21;
    }
    if SOURCES <= n {
        return 24;
    }
    source_record_number(there, b, n, p)
}

// The study with a source more. Refused: 21 closed, 24 no room, 10 to 14 and 32 by the record.
pub fn add_source(s: Study, p: Source) -> Answer
    ensures number { result.number ≡ source_number (network s) p }
    ensures kept { (result.number ≡ 0 → ⊥) → result.study ≡ s }
    ensures network { network result.study ≡ after_source (network s) p }
{
    let bus = p.bus as usize;
    let place = place_in(bus);
    let b = s.buses[place];
    let there = (bus < s.bus_count) & (bus < BUSES);
    let source_ground = source_number(s.closed, s.source_count, there, b, p);
    if source_ground != 0 {
        return Answer {
            number: source_ground,
            study: s,
        };
    }
    let n = s.source_count;
    let mut next = s;
    next.sources[n] = p;
    next.source_count = n + 1;
    Answer {
        number: source_ground,
        study: next,
    }
}

// Ground 34: whether a place holds a source and is not the first, by how many sources a study counts.
fn place_ok(count: usize, place: usize) -> bool
    ensures { (s : Study) → s.source_count ≡ count → length s.sources ≡ max_sources → result ≡ place_ok (network s) place }
{
    (0 < place) & (place < clamped_sources(count))
}

// The study without the source at a place; later sources move up one place. Refused: 34 if the place is 0 or holds nothing.
// The record behind the last source stays in the array: it is counted no more, and the next addition writes over it.
pub fn withdraw(s: Study, place: u32) -> Answer
    ensures number { result.number ≡ withdraw_number (network s) place }
    ensures kept { (result.number ≡ 0 → ⊥) → result.study ≡ s }
    ensures network { network result.study ≡ after_withdraw (network s) place }
{
    let j = place as usize;
    if !place_ok(s.source_count, j) {
        return Answer {
            number: 34,
            study: s,
        };
    }
    let n = clamped_sources(s.source_count);
    let last = n - 1;
    let mut next = s;
    let mut i = j;
    while i < last {
        let behind = i + 1;
        let p = next.sources[behind];
        next.sources[i] = p;
        i = behind;
    }
    next.source_count = last;
    Answer {
        number: 0,
        study: next,
    }
}

// The study with another record for the source at a place. Refused: 34 if the place is 0 or holds nothing, then 10 to 14 and 32 by the
// record at that place.
pub fn replace(s: Study, place: u32, p: Source) -> Answer
    ensures number { result.number ≡ replace_number (network s) place p }
    ensures kept { (result.number ≡ 0 → ⊥) → result.study ≡ s }
    ensures network { network result.study ≡ after_replace (network s) place p }
{
    let j = place as usize;
    if !place_ok(s.source_count, j) {
        return Answer {
            number: 34,
            study: s,
        };
    }
    let bus = p.bus as usize;
    let at = place_in(bus);
    let b = s.buses[at];
    let bus_there = (bus < s.bus_count) & (bus < BUSES);
    let record_ground = source_record_number(bus_there, b, j, p);
    if record_ground != 0 {
        return Answer {
            number: record_ground,
            study: s,
        };
    }
    let mut next = s;
    next.sources[j] = p;
    Answer {
        number: record_ground,
        study: next,
    }
}

// The study closed. Refused: 21 closed already, 25 without a source.
pub fn close(s: Study) -> Answer
    ensures number { result.number ≡ close_number (network s) }
    ensures kept { (result.number ≡ 0 → ⊥) → result.study ≡ s }
    ensures network { network result.study ≡ after_close (network s) }
{
    if s.closed {
        return Answer {
            number: 21,
            study: s,
        };
    }
    if s.source_count == 0 {
        return Answer {
            number: 25,
            study: s,
        };
    }
    let mut next = s;
    next.closed = true;
    Answer {
        number: 0,
        study: next,
    }
}

// The study open again, with all its records. Refused: 22 not closed.
pub fn reopen(s: Study) -> Answer
    ensures number { result.number ≡ reopen_number (network s) }
    ensures kept { (result.number ≡ 0 → ⊥) → result.study ≡ s }
    ensures network { network result.study ≡ after_reopen (network s) }
{
    if !s.closed {
        return Answer {
            number: 22,
            study: s,
        };
    }
    let mut next = s;
    next.closed = false;
    Answer {
        number: 0,
        study: next,
    }
}
