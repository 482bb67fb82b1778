// Flipped pairs (Rules 4.4): the triangles on both sides of a reversed seam. An axis stands for a seam: AxisU for the
// one that joins u = 0 and u = M, AxisV for the one that joins v = 0 and v = N. Its low rim is the first of the two,
// its high rim the other.
ghost use Rattle.std.specs.Prelude.{ℕ, ◌+◌, ◌*◌, ◌≤◌, ◌<◌, ◌≡◌, length, get_or, Some};
ghost use Rattle.cyclic.specs.Mapping.{steps_of, HasIndex};
ghost use Rattle.surface.specs.Surface.{proper, slot, triangle_number, wrap_ends, step_on, flipped as allFlipped};
ghost use Rattle.surface.specs.Found.{of_mapping, seam_of, Maps};
ghost use Rattle.surface.specs.Rims.{rim_steps};
ghost use Rattle.mesh.specs.Corners.{shape_of};
ghost use Rattle.mesh.specs.Held.{pairs_in};
ghost use Rattle.mesh.specs.Writers.{pairs_of, same_pairs};
ghost use Rattle.mesh.specs.Rims.{seam_at, rim_slot, step_if, Starts, Rims, flip_step, flips};

use crate::corner::Surface;
use crate::pairs::Pairs;
use crate::triangles::Half;
use cyclic::mapping::CyclicMapping;
use param::Axis;

// The number of triangles before each u of a surface, and of all.
#[derive(Clone, Copy)]
pub struct RowStarts<'a> {
    pub surface: Surface,
    pub starts: &'a [usize],
    pub ghost counted: { Starts surface starts.now },
}

// The triangles along the rims of a seam: `low` counts those before each cell of the low rim, `high` those after each
// cell of the high rim, one place on.
#[derive(Clone, Copy)]
struct RimCounts<'a> {
    surface: Surface,
    axis: Axis,
    low: &'a [usize],
    high: &'a [usize],
    ghost counted: { Rims axis (shape_of surface) low.now high.now },
}

impl Surface {
    // The seam of an axis. As in `Axis`: of a pair of both the fields would lose their names.
    fn seam(self, axis: Axis) -> Option<CyclicMapping>
        ensures { result ≡ seam_at axis self }
    {
        match axis {
            Axis::AxisU => self.u,
            Axis::AxisV => self.v,
        }
    }

    // Whether the triangle at step i of a rim is there: its cell's first on the low rim, its second on the high one.
    fn rim_has(self, axis: Axis, half: Half, i: usize) -> bool
        requires { i < rim_steps axis (shape_of self) }
        ensures { result ≡ proper (slot (shape_of self) (rim_slot half axis (shape_of self) i)) }
    {
        let (u, v) = match (axis, half) {
            (Axis::AxisU, Half::First) => (0, i),
            (Axis::AxisU, Half::Second) => (self.m - 1, i),
            (Axis::AxisV, Half::First) => (i, 0),
            (Axis::AxisV, Half::Second) => (i, self.n - 1),
        };
        self.triangle(u, v, half).is_proper()
    }

    // The number of triangles after cell (u, v), from that before it.
    #[tactic(auto, using(crate::proofs::Numbers::counted))]
    fn count_cell(self, u: usize, v: usize, before: usize) -> usize
        requires cell { (u < self.m) × (v < self.n) }
        requires before { before ≡ triangle_number (shape_of self) (2 * (u * self.n + v)) }
        ensures { result ≡ triangle_number (shape_of self) (2 * (u * self.n + (v + 1))) }
    {
        let (first, second) = self.triangles(u, v);
        before + usize::from(first.is_proper()) + usize::from(second.is_proper())
    }
}

// The step between places p0 and p1 of a line whose last place is its first again, if they are neighbours.
fn wrap_ends(steps: usize, p0: usize, p1: usize) -> Option<usize>
    requires { (p0 ≤ steps) × (p1 ≤ steps) × (steps ≤ 65535) }
    ensures { result ≡ step_if steps (wrap_ends steps p0 p1) }
{
    if p0 + 1 == steps && p1 == 0 {
        Some(p0)
    } else if p1 + 1 == steps && p0 == 0 {
        Some(p1)
    } else if p0 + 1 == p1 {
        Some(p0)
    } else if p1 + 1 == p0 {
        Some(p1)
    } else {
        None
    }
}

// The step of the low rim that lies on step i of the high rim, if there is one.
#[tactic(auto, using(crate::proofs::Numbers::step_ends), unfolding(surface::specs::Surface::step_on))]
fn step_on(mapping: CyclicMapping, i: usize) -> Option<usize>
    requires { HasIndex mapping (i + 1) }
    ensures { result ≡ step_if (steps_of mapping) (step_on (of_mapping mapping) (steps_of mapping) i) }
{
    wrap_ends(mapping.steps(), mapping.inverse(i), mapping.inverse(i + 1))
}

impl RimCounts<'_> {
    // Puts down the triangles that meet at step i of the high rim, if both are there.
    #[tactic(auto, using(crate::proofs::Numbers::counted))]
    fn flip_step(&self, mapping: CyclicMapping, i: usize, pairs: &mut Pairs<'_>)
        requires maps { Maps (Some mapping) (rim_steps self.now.axis (shape_of self.now.surface)) }
        requires step { i < rim_steps self.now.axis (shape_of self.now.surface) }
        requires room { 2 * pairs.old.count + 2 ≤ length pairs.old.list.now }
        ensures same { same_pairs pairs.old pairs.new }
        ensures pairs { pairs_of pairs.new
            ≡ flip_step self.now.axis (shape_of self.now.surface) (of_mapping mapping) i (pairs_of pairs.old) }
    {
        let Some(on) = step_on(mapping, i) else {
            return;
        };
        let RimCounts { surface, axis, .. } = *self;
        if surface.rim_has(axis, Half::First, on) && surface.rim_has(axis, Half::Second, i) {
            let a = self.low[on];
            let b = self.high[i + 1] - 1;
            pairs.insert(a.min(b), a.max(b));
        }
    }

    // The flipped pairs of the seam, if it is there and is reversed.
    #[tactic(auto, using(crate::proofs::Flips::flips_known))]
    fn flip_seam(&self, pairs: &mut Pairs<'_>)
        requires { 2 * (pairs.old.count + rim_steps self.now.axis (shape_of self.now.surface))
            ≤ length pairs.old.list.now }
        ensures same { same_pairs pairs.old pairs.new }
        ensures pairs { pairs_of pairs.new ≡ flips self.now.axis (shape_of self.now.surface)
            (seam_of (seam_at self.now.axis self.now.surface)) (pairs_of pairs.old) }
    {
        if let Some(mapping) = self.surface.seam(self.axis)
            && mapping.is_reverse()
        {
            for i in 0..mapping.steps() {
                self.flip_step(mapping, i, pairs);
            }
        }
    }
}

impl RowStarts<'_> {
    // Counts the triangles before each cell (u, v), and before the next row.
    fn count_row(&self, u: usize, counts: &mut [usize])
        requires { (u < self.now.surface.m) × (self.now.surface.n < length counts.old) }
        ensures { (i : ℕ) → i ≤ self.now.surface.n → get_or counts.new i 0
            ≡ triangle_number (shape_of self.now.surface) (2 * (u * self.now.surface.n + i)) }
    {
        counts[0] = self.starts[u];
        for v in 0..self.surface.n {
            counts[v + 1] = self.surface.count_cell(u, v, counts[v]);
        }
    }

    // All flipped pairs, into the front of a list: those of the u seam, then those of the v seam.
    pub fn find_flipped(&self, list: &mut [usize]) -> usize
        requires { 2 * (self.now.surface.m + self.now.surface.n) ≤ length list.old }
        ensures pairs { pairs_in result list.new ≡ allFlipped (shape_of self.now.surface) }
        ensures held { 2 * result ≤ length list.new }
    {
        let mut low = [0usize; 256];
        let mut high = [0usize; 256];
        self.count_row(0, &mut low);
        self.count_row(self.surface.m - 1, &mut high);
        let mut pairs = Pairs { list, count: 0 };
        RimCounts {
            surface: self.surface,
            axis: Axis::AxisU,
            low: &low,
            high: &high,
        }
        .flip_seam(&mut pairs);
        RimCounts {
            surface: self.surface,
            axis: Axis::AxisV,
            low: self.starts,
            high: self.starts,
        }
        .flip_seam(&mut pairs);
        pairs.count
    }
}
