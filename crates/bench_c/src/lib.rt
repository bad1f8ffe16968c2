// What C times (bench/*.c): each function of the crate bench that is timed there, by the C calling convention and under its own name. A
// library of Rattle exports nothing to C, so these stand in a static library of their own.
#![tactic(auto)]

ghost use Rattle.std.specs.Prelude.{◌≡◌, ◌+◌};
ghost use Rattle.enclosure.specs.Doubles.{added, inverted, scaled, root_below};
ghost use Rattle.network.specs.Network.{network};
ghost use Rattle.reader.specs.File.{read_of};
ghost use Rattle.bench.specs.Breakings.{broken_times};
ghost use Rattle.bench.specs.Queries.{sums_of};
ghost use Rattle.bench.specs.Reports.{reported_times};
ghost use Rattle.bench.specs.Writes.{written_times};

#[unsafe(no_mangle)]
pub extern "C" fn enclosure_add(a: f64, b: f64, c: f64, d: f64, re: &mut f64, im: &mut f64)
    ensures { record { re = re.new; im = im.new } ≡ added (record { re = a; im = b }) (record { re = c; im = d }) }
{
    bench::enclosure_add(a, b, c, d, re, im);
}

#[unsafe(no_mangle)]
pub extern "C" fn enclosure_inverse(a: f64, b: f64, re: &mut f64, im: &mut f64)
    ensures { record { re = re.new; im = im.new } ≡ inverted (record { re = a; im = b }) }
{
    bench::enclosure_inverse(a, b, re, im);
}

#[unsafe(no_mangle)]
pub extern "C" fn enclosure_scale(a: f64, b: f64, p: u32, q: u32, re: &mut f64, im: &mut f64)
    ensures { record { re = re.new; im = im.new } ≡ scaled p q (record { re = a; im = b }) }
{
    bench::enclosure_scale(a, b, p, q, re, im);
}

#[unsafe(no_mangle)]
pub extern "C" fn enclosure_root_below(m: f64) -> u64
    ensures { result ≡ root_below m }
{
    bench::enclosure_root_below(m)
}

// A text read, and k queries of its study, going round over the buses up to `last`.
#[unsafe(no_mangle)]
pub extern "C" fn network_sums(text: &[u8], last: u8, k: u32) -> f64
    ensures { result ≡ sums_of (read_of text.now).network (last + 1) k }
{
    bench::network_sums(text, last, k)
}

// A text read, and k reports of its study.
#[unsafe(no_mangle)]
pub extern "C" fn network_reports(text: &[u8], table: &mut [f64], k: u32) -> f64
    ensures { reported_times (read_of text.now).network table.old k ≡ (table.new, result) }
{
    bench::network_reports(text, table, k)
}

// A text read, and its study written k times.
#[unsafe(no_mangle)]
pub extern "C" fn study_writes(text: &[u8], buffer: &mut [u8], k: u32) -> usize
    ensures { written_times (read_of text.now).network buffer.old k ≡ (buffer.new, result) }
{
    bench::study_writes(text, buffer, k)
}

// A text read, and k breaking calls of its study, going round over the buses up to `last`.
#[unsafe(no_mangle)]
pub extern "C" fn network_breakings(
    text: &[u8],
    last: u8,
    delay: u32,
    table: &mut [f64],
    k: u32,
) -> f64
    ensures { broken_times (read_of text.now).network (last + 1) delay table.old k ≡ (table.new, result) }
{
    bench::network_breakings(text, last, delay, table, k)
}

// A text read, its study reopened, and a change made k times, each on the study after the one before. How many sources there are then.
#[unsafe(no_mangle)]
pub extern "C" fn study_changes(text: &[u8], change: u32, place: u32, k: u32) -> usize {
    bench::changes::study_changes(text, change, place, k)
}
