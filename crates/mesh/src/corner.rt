// The corner rule (Rules 4.2): which grid point a corner of a cell stands for once the seams are joined.
ghost use Rattle.std.proofs.Props.{props};
ghost use Rattle.mesh.specs.Bounded.{Bounded, Maps-prop};

use cyclic::mapping::CyclicMapping;

// A grid's steps, and two seams of its own lines.
// m and n and no Cells, as the definitions over a surface have them.
#[derive(Clone, Copy)]
pub struct Surface {
    pub m: usize,
    pub n: usize,
    pub u: Option<CyclicMapping>,
    pub v: Option<CyclicMapping>,
    pub ghost bounded: { Bounded m n u v } by { Prim.hlevel (props, Maps-prop u n, Maps-prop v m) },
}

// A point by the lines that a seam joins: how many steps its line is from the first one, and the step along it.
#[derive(Clone, Copy)]
pub struct Place {
    pub line: usize,
    pub step: usize,
}

// The numbers of what a cell's four corners stand for, each named by its steps from the cell's first, in u and in v.
#[derive(Clone, Copy)]
pub struct Cell {
    pub i00: usize,
    pub i10: usize,
    pub i01: usize,
    pub i11: usize,
}

impl Place {
    ghost use Rattle.std.specs.Prelude.{◌≡◌};
    ghost use Rattle.mesh.specs.Corners.{Joins, join_of};

    // The rule of one seam: where it was found, a step of the last line becomes its inverse image on line 0.
    #[tactic(auto, unfolding(crate::specs::Corners::join_of))]
    fn join(self, seam: Option<CyclicMapping>, last: usize) -> Place
        requires { Joins seam self.step }
        ensures { result ≡ join_of seam last self.line self.step }
    {
        match seam {
            Some(mapping) if self.line == last => Place {
                line: 0,
                step: mapping.inverse(self.step),
            },
            _ => self,
        }
    }
}

// A cell stays two numbers: as a struct it would carry its surface along, to say that they are within it.
impl Surface {
    ghost use Rattle.std.specs.Prelude.{◌+◌, ◌≤◌, ◌<◌, ◌≡◌};
    ghost use Rattle.surface.specs.Surface.{corner};
    ghost use Rattle.mesh.specs.Corners.{shape_of, cell_corners};

    // The number of corner (u, v) of a cell of row `row`: the u rule, then in the last row the v rule.
    #[tactic(auto, using(crate::proofs::Joins::rules_in_turn))]
    pub fn corner(self, row: usize, u: usize, v: usize) -> usize
        requires { (u ≤ self.m) × (v ≤ self.n) × (row < self.n) }
        ensures { result ≡ corner (shape_of self) row u v }
    {
        let p = Place { line: u, step: v }.join(self.u, self.m);
        if row + 1 == self.n {
            let q = Place {
                line: p.step,
                step: p.line,
            }
            .join(self.v, self.n);
            grid::point_number(self.n, q.step, q.line)
        } else {
            grid::point_number(self.n, p.line, p.step)
        }
    }

    // The corners of cell (u, v).
    pub fn cell_corners(self, u: usize, v: usize) -> Cell
        requires { (u < self.m) × (v < self.n) }
        ensures { result ≡ cell_corners (shape_of self) u v }
    {
        Cell {
            i00: self.corner(v, u, v),
            i10: self.corner(v, u + 1, v),
            i01: self.corner(v, u, v + 1),
            i11: self.corner(v, u + 1, v + 1),
        }
    }
}
