// The rows behind the first as additions, as many at a time as one call adds.
ghost use Rattle.std.specs.Prelude.{◌≡◌, false, ℕ, ◌+◌, ◌≤◌, ◌<◌, length, drop};
ghost use Rattle.network.specs.Network.{Network};
ghost use Rattle.network.specs.Additions.{listed};
ghost use Rattle.reader.specs.File.{rows, read_from};
ghost use Rattle.reader.specs.Parts.{entry_of, added_then, behind};

use crate::Row;
use crate::rows::{row_end, row_of};
use network::additions::{ADDITIONS, Addition, Additions, Entry, no_additions};

// Additions, whether a row that breaks the form stands behind them, and where the rows behind them begin.
#[derive(Clone, Copy)]
pub struct Part {
    pub additions: Additions,
    pub malformed: bool,
    pub next: usize,
}

// What a row behind the first adds: a record, or nothing, where it breaks the form.
#[derive(Clone, Copy)]
pub enum RowEntry {
    Record(Entry),
    Nothing,
}

fn entry_of(said: Row) -> RowEntry
    ensures { result ≡ entry_of said }
{
    match said {
        Row::WithBus(b) => {
            let addition = Addition::OfBus(b);
            RowEntry::Record(Entry { addition })
        }
        Row::WithSource(p) => {
            let addition = Addition::OfSource(p);
            RowEntry::Record(Entry { addition })
        }
        Row::Start(t) => RowEntry::Nothing,
        Row::Malformed => RowEntry::Nothing,
    }
}

// The rows that begin at a place: at most as many as one call adds, up to the text's end or to a row that breaks the form.
pub(crate) fn part_of(text: &[u8], from: usize) -> Part
    requires { from < length text.now }
    ensures place { (from + length (listed result.additions) ≤ result.next) × (result.next ≤ length text.now + 2) }
    ensures onward { result.malformed ≡ false → from < result.next }
    ensures rows { (i : ℕ) (n : Network) → 0 < i → read_from i n (rows (drop from text.now)) ≡ added_then (behind result text.now) i n (listed result.additions) }
{
    let mut additions = no_additions();
    let mut at = from;
    while at < text.len() {
        let n = additions.count;
        if ADDITIONS <= n {
            return Part {
                additions,
                malformed: false,
                next: at,
            };
        }
        let end = row_end(text, at);
        let said = row_of(false, &text[at..end]);
        let found = entry_of(said);
        let RowEntry::Record(entry) = found else {
            return Part {
                additions,
                malformed: true,
                next: at,
            };
        };
        additions.entries[n] = entry;
        additions.count = n + 1;
        at = end + 2;
    }
    Part {
        additions,
        malformed: false,
        next: at,
    }
}
