// The triangles of a joined surface (Rules 4.3): two of each cell, in cell order, less those with two equal numbers.
ghost use Rattle.std.specs.Prelude.{◌≡◌, cond, [], ◌∷◌, ◌++◌, ◌+◌, ◌*◌, ◌≤◌, ◌<◌, length};
ghost use Rattle.surface.specs.Surface.{proper, slot, kept};
ghost use Rattle.mesh.specs.Corners.{shape_of, triangle_of, slot_at};
ghost use Rattle.mesh.specs.declared.triangles.Half.TheVariants.{First, Second};
ghost use Rattle.mesh.specs.Held.{triangles_in};
ghost use Rattle.mesh.specs.Rims.{Starts};

use crate::corner::Surface;

// Three point numbers, in the order of Rules 4.3.
#[derive(Clone, Copy)]
pub struct Triangle {
    pub a: usize,
    pub b: usize,
    pub c: usize,
}

// Which of the two triangles of a cell.
#[derive(Clone, Copy)]
pub enum Half {
    First,
    Second,
}

impl Triangle {
    // Whether its three numbers differ.
    pub fn is_proper(self) -> bool
        ensures { result ≡ proper (triangle_of self) }
    {
        self.a != self.b && self.a != self.c && self.b != self.c
    }
}

impl Surface {
    // The two triangles of cell (u, v), whose corners are made once for both.
    #[tactic(auto, using(crate::proofs::Cells::cell_slots), unfolding(surface::specs::Surface::half_of))]
    pub(crate) fn triangles(self, u: usize, v: usize) -> (Triangle, Triangle)
        requires { (u < self.m) × (v < self.n) }
        ensures { (triangle_of result.0 ≡ slot (shape_of self) (slot_at First (u * self.n + v)))
            × (triangle_of result.1 ≡ slot (shape_of self) (slot_at Second (u * self.n + v))) }
    {
        let c = self.cell_corners(u, v);
        let first = Triangle {
            a: c.i00,
            b: c.i10,
            c: c.i01,
        };
        let second = Triangle {
            a: c.i10,
            b: c.i11,
            c: c.i01,
        };
        (first, second)
    }

    // One of them.
    pub(crate) fn triangle(self, u: usize, v: usize, half: Half) -> Triangle
        requires { (u < self.m) × (v < self.n) }
        ensures { triangle_of result ≡ slot (shape_of self) (slot_at half (u * self.n + v)) }
    {
        let (first, second) = self.triangles(u, v);
        match half {
            Half::First => first,
            Half::Second => second,
        }
    }
}

// The triangles of a surface so far: the first `count` of a lent list, which has room for all.
#[derive(Drop)]
struct Triangles<'a> {
    surface: Surface,
    list: &'a mut [usize],
    count: usize,
    ghost room: { 6 * (surface.m * surface.n) ≤ length list.now },
    ghost held: { 3 * count ≤ length list.now },
}

// Each method says `same_triangles`: its contract is all that tells a caller that the list is the same.
impl Triangles<'_> {
    ghost use Rattle.mesh.specs.Writers.{triangles_of, HoldsSlots, same_triangles};

    // Writes a triangle after those so far.
    #[tactic(auto, using(crate::proofs::Holding::triangle_added))]
    fn write(&mut self, t: Triangle)
        requires { 3 * self.old.count + 3 ≤ length self.old.list.now }
        ensures same { same_triangles self.old self.new }
        ensures held { triangles_of self.new ≡ triangles_of self.old ++ (triangle_of t ∷ []) }
    {
        let at = 3 * self.count;
        self.list[at..at + 3].copy_from_slice(&[t.a, t.b, t.c]);
        self.count += 1;
    }

    // Adds a triangle if its three numbers differ.
    fn add(&mut self, t: Triangle)
        requires { 3 * self.old.count + 3 ≤ length self.old.list.now }
        ensures same { same_triangles self.old self.new }
        ensures held { triangles_of self.new
            ≡ triangles_of self.old ++ cond (proper (triangle_of t)) (triangle_of t ∷ []) [] }
    {
        if t.is_proper() {
            self.write(t);
        }
    }

    // Adds the triangles of cell (u, v) to those of the cells before it.
    fn build_cell(&mut self, u: usize, v: usize)
        requires cell { (u < self.old.surface.m) × (v < self.old.surface.n) }
        requires held { HoldsSlots self.old (2 * (u * self.old.surface.n + v)) }
        ensures same { same_triangles self.old self.new }
        ensures held { HoldsSlots self.new (2 * (u * self.old.surface.n + (v + 1))) }
    {
        let (first, second) = self.surface.triangles(u, v);
        self.add(first);
        self.add(second);
    }

    // The same of a cell that touches neither the last u nor the last v: no rule applies, and its numbers differ.
    // One function for all cells is too slow: 255 × 255 of them took 1.9 ms, and take 0.31 ms.
    fn build_inner_cell(&mut self, u: usize, v: usize)
        requires cell { (u + 1 < self.old.surface.m) × (v + 1 < self.old.surface.n) }
        requires held { HoldsSlots self.old (2 * (u * self.old.surface.n + v)) }
        ensures same { same_triangles self.old self.new }
        ensures held { HoldsSlots self.new (2 * (u * self.old.surface.n + (v + 1))) }
    {
        let i00 = grid::point_number(self.surface.n, u, v);
        let i10 = i00 + self.surface.n + 1;
        self.write(Triangle {
            a: i00,
            b: i10,
            c: i00 + 1,
        });
        self.write(Triangle {
            a: i10,
            b: i10 + 1,
            c: i00 + 1,
        });
    }

    // Adds the triangles of row u: of its cells off the last v without the rules, unless u is the last, too.
    fn build_row(&mut self, u: usize)
        requires cell { u < self.old.surface.m }
        requires held { HoldsSlots self.old (2 * (u * self.old.surface.n)) }
        ensures same { same_triangles self.old self.new }
        ensures held { HoldsSlots self.new (2 * ((u + 1) * self.old.surface.n)) }
    {
        let Surface { m, n, .. } = self.surface;
        let inner = if u + 1 < m { n - 1 } else { 0 };
        for v in 0..inner {
            self.build_inner_cell(u, v);
        }
        for v in inner..n {
            self.build_cell(u, v);
        }
    }

    // Adds those of all rows. `starts` is given the number of triangles before each u, and of all.
    fn build_rows(&mut self, starts: &mut [usize])
        requires none { self.old.count ≡ 0 }
        requires room { self.old.surface.m < length starts.old }
        ensures same { same_triangles self.old self.new }
        ensures held { HoldsSlots self.new (2 * (self.old.surface.m * self.old.surface.n)) }
        ensures starts { Starts self.old.surface starts.new }
    {
        starts[0] = 0;
        for u in 0..self.surface.m {
            self.build_row(u);
            starts[u + 1] = self.count;
        }
    }
}

impl Surface {
    // All triangles, into the front of a list, and how many there are; `starts` as above.
    pub fn build_triangles(self, list: &mut [usize], starts: &mut [usize]) -> usize
        requires room { 6 * (self.m * self.n) ≤ length list.old }
        requires starts_room { self.m < length starts.old }
        ensures triangles { triangles_in result list.new ≡ kept (shape_of self) (2 * (self.m * self.n)) }
        ensures held { 3 * result ≤ length list.new }
        ensures starts { Starts self starts.new }
    {
        let mut built = Triangles {
            surface: self,
            list,
            count: 0,
        };
        built.build_rows(starts);
        built.count
    }
}
