// The grounds in the input on which a bus record is refused: a test for each, and the first that fails.
ghost use Rattle.std.specs.Prelude.{◌≡◌, cond, ◌≤◌, ◌<◌, eqb};
ghost use Rattle.network.specs.Records.{all, volts_ok, rating_ok, no_branch_tests, line_tests, transformer_tests, branch_ok};
ghost use Rattle.tree.specs.Limits.{max_buses};
ghost use Rattle.sweep.specs.Points.{number_at};
ghost use Rattle.sweep.specs.laws.Columns.{FilledTo};
ghost use Rattle.network.specs.Network.{bus_at};
ghost use Rattle.network.specs.laws.Ways.{counted_by};
ghost use Rattle.network.specs.Grounds.{parent_ok, kind_ok, line_volts_ok, transformer_volts_ok, depth_ok, bus_record_number};

use crate::checks::{rated_ok, unless};
use crate::study::{BUSES, Bus, blank_bus};
use sweep::columns::number_at;

// The branches that may lead from bus 0 to a bus.
const BRANCHES: usize = 18;

// The transformers among them.
const TRANSFORMERS: usize = 4;

// Ground 2: nominal volts.
fn volts_ok(b: Bus) -> bool
    ensures { result ≡ volts_ok b }
{
    (100 <= b.volts) & (b.volts <= 420000)
}

// Ground 3: bus 0 names 0 as its parent, any other bus a smaller number than its own.
fn parent_ok(i: usize, b: Bus) -> bool
    ensures { result ≡ parent_ok i b }
{
    ((i == 0) & (b.parent == 0)) | ((0 < i) & ((b.parent as usize) < i))
}

// Ground 4: bus 0 has no branch, any other bus a line or a transformer.
fn kind_ok(i: usize, b: Bus) -> bool
    ensures { result ≡ kind_ok i b }
{
    ((i == 0) & (b.kind == 0)) | ((0 < i) & ((1 <= b.kind) & (b.kind <= 2)))
}

// Ground 5 where there is no branch.
fn no_branch_ok(b: Bus) -> bool
    ensures { result ≡ all (no_branch_tests b) }
{
    (b.f1 == 0) & (b.f2 == 0) & (b.f3 == 0) & (b.f4 == 0) & (b.f5 == 0)
}

// Ground 5 of a line: r, x, metres, circuits, 0.
fn line_ok(b: Bus) -> bool
    ensures { result ≡ all (line_tests b) }
{
    (b.f1 <= 100000)
        & (b.f2 <= 100000)
        & !((b.f1 == 0) & (b.f2 == 0))
        & ((1 <= b.f3) & (b.f3 <= 200000))
        & ((1 <= b.f4) & (b.f4 <= 8))
        & (b.f5 == 0)
}

// Ground 5 of a transformer: kVA, uk, uR. Its rated volts have ground 7.
fn transformer_ok(b: Bus) -> bool
    ensures { result ≡ all (transformer_tests b) }
{
    ((10 <= b.f3) & (b.f3 <= 1000000)) & ((100 <= b.f4) & (b.f4 <= 30000)) & (b.f5 < b.f4)
}

// Ground 5: the branch fields, by the kind.
fn branch_ok(b: Bus) -> bool
    ensures { result ≡ branch_ok b }
{
    let kind = b.kind;
    match kind {
        1 => line_ok(b),
        2 => transformer_ok(b),
        _ => no_branch_ok(b),
    }
}

// Ground 6: a line joins equal nominal volts.
fn line_volts_ok(parent: Bus, b: Bus) -> bool
    ensures { result ≡ line_volts_ok parent b }
{
    !(b.kind == 1) | (parent.volts == b.volts)
}

// Ground 7: rated volts on the parent's side and on the bus's own.
fn transformer_volts_ok(parent: Bus, b: Bus) -> bool
    ensures { result ≡ transformer_volts_ok parent b }
{
    !(b.kind == 2) | (rated_ok(b.f1, parent.volts) & rated_ok(b.f2, b.volts))
}

// Ground 9: rated initial and rated peak amperes.
fn rating_ok(b: Bus) -> bool
    ensures { result ≡ rating_ok b }
{
    ((1 <= b.rating) & (b.rating <= 1000000)) & ((1 <= b.peak_rating) & (b.peak_rating <= 3000000))
}

// The branches, and the transformers among them, on the way from a bus to bus 0.
#[derive(Clone, Copy)]
struct Way {
    branches: usize,
    transformers: usize,
}

// Of each bus its parent and the kind of its branch: the way to bus 0 is found by these, so that no step of it copies the records.
#[derive(Clone, Copy)]
struct WayColumns {
    parents: [u32; BUSES],
    kinds: [u32; BUSES],
}

// The columns of the first n records.
fn way_columns(buses: [Bus; BUSES], n: usize) -> WayColumns
    requires { n ≤ max_buses }
    ensures parents { FilledTo 0 (λ k. (bus_at buses k).parent) n result.parents }
    ensures kinds { FilledTo 0 (λ k. (bus_at buses k).kind) n result.kinds }
{
    let mut parents = [0; BUSES];
    let mut kinds = [0; BUSES];
    let mut k = 0;
    while k < n {
        let b = buses[k];
        parents[k] = b.parent;
        kinds[k] = b.kind;
        k += 1;
    }
    WayColumns { parents, kinds }
}

// 1 where the branch is a transformer, else 0.
fn if_transformer(kind: u32) -> usize
    ensures { result ≡ cond (eqb kind 2) 1 0 }
{
    if kind == 2 { 1 } else { 0 }
}

// The way from bus i to bus 0, followed while numbers fall.
fn way_of<'a>(parents: &'a [u32; BUSES], kinds: &'a [u32; BUSES], i: usize) -> Way
    ensures branches { result.branches ≡ counted_by (number_at parents.now) (λ k. 1) i }
    ensures transformers { result.transformers ≡ counted_by (number_at parents.now) (λ k. cond (eqb (number_at kinds.now k) 2) 1 0) i }
{
    let parent = number_at(parents, i) as usize;
    if parent < i {
        let above = way_of(parents, kinds, parent);
        Way {
            branches: above.branches + 1,
            transformers: above.transformers + if_transformer(number_at(kinds, i)),
        }
    } else {
        Way {
            branches: 0,
            transformers: 0,
        }
    }
}

// Ground 8: the branches and the transformers on the way to bus 0.
fn depth_ok(buses: [Bus; BUSES], i: usize) -> bool
    requires { i < max_buses }
    ensures { result ≡ depth_ok buses i }
{
    let c = way_columns(buses, i + 1);
    let w = way_of(&c.parents, &c.kinds, i);
    (w.branches <= BRANCHES) & (w.transformers <= TRANSFORMERS)
}

// A record of the array, blank past its end.
fn record_at(buses: [Bus; BUSES], i: usize) -> Bus
    ensures { result ≡ bus_at buses i }
{
    if i < BUSES { buses[i] } else { blank_bus() }
}

// The ground in the input on which the record of bus i is refused, 0 where it is accepted.
pub(crate) fn bus_record_number(buses: [Bus; BUSES], i: usize) -> u32
    requires { i < max_buses }
    ensures { result ≡ bus_record_number buses i }
{
    let b = buses[i];
    let above = record_at(buses, b.parent as usize);
    let volts = volts_ok(b);
    let parent = parent_ok(i, b);
    let kind = kind_ok(i, b);
    let branch = branch_ok(b);
    let line_volts = line_volts_ok(above, b);
    let transformer_volts = transformer_volts_ok(above, b);
    let depth = depth_ok(buses, i);
    let rating = rating_ok(b);
    let last = unless(depth, 8, unless(rating, 9, 0));
    let rest = unless(line_volts, 6, unless(transformer_volts, 7, last));
    let next = unless(kind, 4, unless(branch, 5, rest));
    unless(volts, 2, unless(parent, 3, next))
}
