// The two sweeps over a tree of buses: what is seen of each bus at its parent, and of its parent at each bus.
ghost use Rattle.std.specs.Prelude.{◌≡◌, List, ℕ, min};
ghost use Rattle.enclosure.specs.Doubles.{doubles};
ghost use Rattle.tree.specs.Grid.{times_square, through};
ghost use Rattle.tree.specs.Limits.{max_buses};
ghost use Rattle.sweep.specs.Points.{number_at, point_at, points, column_grid};
ghost use Rattle.sweep.specs.Sweep.{child_of, with_children, with_parent, down_at, rises_of, falls_of, seen_of};

use crate::BUSES;
use crate::columns::{Points, clamped, number_at, parent_of, point_at};
use enclosure::{Complex, add, inverse, is_nothing, nothing, scale};

// What the sweep towards bus 0 leaves at each bus i: what is seen at i without its parent, what is seen of i at its parent, and what its
// parent had gathered before i, from the children past i.
#[derive(Clone, Copy)]
pub struct Rises {
    pub up: Points,
    pub rise: Points,
    pub before: Points,
}

// What the sweep away from bus 0 leaves at each bus i: what is seen at its parent without i, and what is seen of its parent at i.
#[derive(Clone, Copy)]
pub struct Falls {
    pub down: Points,
    pub fall: Points,
}

// An impedance on the other side of a transformer: times the square of p/q.
pub(crate) fn referred(z: Complex, p: u32, q: u32) -> Complex
    ensures { result ≡ times_square doubles p q z }
{
    scale(scale(z, p, q), p, q)
}

// The admittance y at i, seen from its neighbour b: the branch is that of the one with the greater number.
fn seen_through<'a>(
    above: &'a [u32; BUSES],
    below: &'a [u32; BUSES],
    z_re: &'a [f64; BUSES],
    z_im: &'a [f64; BUSES],
    b: usize,
    i: usize,
    y: Complex,
) -> Complex
    ensures { (n : ℕ) (parents : List ℕ) → result ≡ through doubles (point_at z_re.now z_im.now) (column_grid n parents above.now below.now) b i y }
{
    if is_nothing(y) {
        return nothing();
    }
    let behind = inverse(y);
    if i < b {
        let here = referred(behind, number_at(below, b), number_at(above, b));
        return inverse(add(point_at(z_re, z_im, b), here));
    }
    let there = add(point_at(z_re, z_im, i), behind);
    inverse(referred(there, number_at(above, i), number_at(below, i)))
}

// Whether i is a child of b.
fn is_child<'a>(parents: &'a [u32; BUSES], b: usize, i: usize) -> bool
    ensures { result ≡ child_of (number_at parents.now) b i }
{
    if b < i {
        return parent_of(parents, i) == b;
    }
    false
}

// A point, and what is seen at b of its children below `top`, the last one first.
fn with_children<'a>(
    parents: &'a [u32; BUSES],
    rise_re: &'a [f64; BUSES],
    rise_im: &'a [f64; BUSES],
    start: Complex,
    b: usize,
    top: usize,
) -> Complex
    ensures { result ≡ with_children (number_at parents.now) (point_at rise_re.now rise_im.now) start b top }
{
    let mut total = start;
    let mut i = top;
    while b < i {
        i -= 1;
        if is_child(parents, b, i) {
            let more = point_at(rise_re, rise_im, i);
            total = add(total, more);
        }
    }
    total
}

// What is gathered at b, with what is seen there of its parent, which bus 0 has not.
fn with_parent<'a>(
    fall_re: &'a [f64; BUSES],
    fall_im: &'a [f64; BUSES],
    b: usize,
    y: Complex,
) -> Complex
    ensures { result ≡ with_parent (point_at fall_re.now fall_im.now) b y }
{
    if b > 0 {
        return add(y, point_at(fall_re, fall_im, b));
    }
    y
}

// TOWARDS BUS 0, from the last bus down. A bus whose parent has no smaller number adds nothing.
pub fn sweep_up<'a>(
    parents: &'a [u32; BUSES],
    above: &'a [u32; BUSES],
    below: &'a [u32; BUSES],
    z_re: &'a [f64; BUSES],
    z_im: &'a [f64; BUSES],
    own: Points,
    n: usize,
) -> Rises
    ensures { result ≡ rises_of (point_at z_re.now z_im.now) (column_grid (min n max_buses) parents.now above.now below.now) own }
{
    let mut up_re = own.re;
    let mut up_im = own.im;
    let mut rise_re = [0.0; BUSES];
    let mut rise_im = [0.0; BUSES];
    let mut before_re = [0.0; BUSES];
    let mut before_im = [0.0; BUSES];
    let mut i = clamped(n);
    while i > 0 {
        i -= 1;
        let p = parent_of(parents, i);
        if p < i {
            let here = point_at(&up_re, &up_im, i);
            let was = point_at(&up_re, &up_im, p);
            let r = seen_through(above, below, z_re, z_im, p, i, here);
            let sum = add(was, r);
            before_re[i] = was.re;
            before_im[i] = was.im;
            rise_re[i] = r.re;
            rise_im[i] = r.im;
            up_re[p] = sum.re;
            up_im[p] = sum.im;
        }
    }
    let up = Points {
        re: up_re,
        im: up_im,
    };
    let rise = Points {
        re: rise_re,
        im: rise_im,
    };
    let before = Points {
        re: before_re,
        im: before_im,
    };
    Rises { up, rise, before }
}

// What is seen at the parent of bus i without i: what the parent had before i, its other children, its own parent.
fn down_at<'a>(
    parents: &'a [u32; BUSES],
    rise_re: &'a [f64; BUSES],
    rise_im: &'a [f64; BUSES],
    before_re: &'a [f64; BUSES],
    before_im: &'a [f64; BUSES],
    fall_re: &'a [f64; BUSES],
    fall_im: &'a [f64; BUSES],
    i: usize,
) -> Complex
    ensures { result ≡ down_at (number_at parents.now) (point_at rise_re.now rise_im.now) (point_at before_re.now before_im.now) (point_at fall_re.now fall_im.now) i }
{
    let p = parent_of(parents, i);
    let was = point_at(before_re, before_im, i);
    let beside = with_children(parents, rise_re, rise_im, was, p, i);
    with_parent(fall_re, fall_im, p, beside)
}

// AWAY FROM BUS 0, from bus 0 up. A bus whose parent has no smaller number takes nothing.
pub fn sweep_down<'a>(
    parents: &'a [u32; BUSES],
    above: &'a [u32; BUSES],
    below: &'a [u32; BUSES],
    z_re: &'a [f64; BUSES],
    z_im: &'a [f64; BUSES],
    rise_re: &'a [f64; BUSES],
    rise_im: &'a [f64; BUSES],
    before_re: &'a [f64; BUSES],
    before_im: &'a [f64; BUSES],
    n: usize,
) -> Falls
    ensures { result ≡ falls_of (point_at z_re.now z_im.now) (column_grid (min n max_buses) parents.now above.now below.now) (point_at rise_re.now rise_im.now) (point_at before_re.now before_im.now) }
{
    let mut down_re = [0.0; BUSES];
    let mut down_im = [0.0; BUSES];
    let mut fall_re = [0.0; BUSES];
    let mut fall_im = [0.0; BUSES];
    let m = clamped(n);
    let mut next = 0;
    while next < m {
        // counted on at once, so that each branch ends the turn
        let i = next;
        next += 1;
        let p = parent_of(parents, i);
        if p < i {
            let d = down_at(
                parents, rise_re, rise_im, before_re, before_im, &fall_re, &fall_im, i,
            );
            let f = seen_through(above, below, z_re, z_im, i, p, d);
            down_re[i] = d.re;
            down_im[i] = d.im;
            fall_re[i] = f.re;
            fall_im[i] = f.im;
        }
    }
    let down = Points {
        re: down_re,
        im: down_im,
    };
    let fall = Points {
        re: fall_re,
        im: fall_im,
    };
    Falls { down, fall }
}

// What is seen at bus b, by both sweeps.
pub fn seen_at<'a>(
    up_re: &'a [f64; BUSES],
    up_im: &'a [f64; BUSES],
    fall_re: &'a [f64; BUSES],
    fall_im: &'a [f64; BUSES],
    b: usize,
) -> Complex
    ensures { result ≡ seen_of (points up_re.now up_im.now) (points fall_re.now fall_im.now) b }
{
    with_parent(fall_re, fall_im, b, point_at(up_re, up_im, b))
}
