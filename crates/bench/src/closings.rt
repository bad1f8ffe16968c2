// A study closed again and again, as tests/check-report times it: with a report after each closing, or with one query.
ghost use Rattle.std.specs.Prelude.{◌≡◌, ◌+◌};
ghost use Rattle.network.specs.Network.{network};
ghost use Rattle.network.specs.Grounds.{after_close};
ghost use Rattle.bench.specs.Queries.{sums_of};
ghost use Rattle.bench.specs.Reports.{reported_times};

use crate::{sum_of, with_numbers};
use network::calls::close;
use network::query::query;
use network::report::report;
use network::study::Study;

// k times: the study closed, and reported into the table. The numbers of the table after each report, added up.
pub fn closed_reports(s: Study, table: &mut [f64], k: u32) -> f64
    ensures { reported_times (after_close (network s)) table.old k ≡ (table.new, result) }
{
    let mut total = 0.0;
    let mut i: u32 = 0;
    while i < k {
        let closed = close(s);
        report(closed.study, table);
        total = with_numbers(total, table);
        i += 1;
    }
    total
}

// k times: the study closed, and one query, going round over the buses up to `last`. The six figures of each, added up.
pub fn closed_queries(s: Study, last: u8, k: u32) -> f64
    ensures { result ≡ sums_of (after_close (network s)) (last + 1) k }
{
    let n = last as u32 + 1;
    let mut total = 0.0;
    let mut i: u32 = 0;
    while i < k {
        let closed = close(s);
        let found = query(closed.study, i % n);
        total = total + sum_of(found.amperes);
        i += 1;
    }
    total
}
