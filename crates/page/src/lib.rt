// The lent lists as the walk fills them (Rules 7.3 to 7.5): points in place, pending ones after the kept ones.
#![tactic(auto)]

ghost use Rattle.std.specs.Prelude.{◌≡◌, IsTrue, get_or};
ghost use Rattle.std.specs.Float.{nan};

use crossing::Crossing;
use refusal::Refusal;
use vector::Vector;

// A point of a trace: where a leg crosses a side of a triangle, and the number of the sample that the leg leads to.
#[derive(Clone, Copy)]
pub struct TracedPoint {
    pub crossing: Crossing,
    pub sample: usize,
}

// The points written so far, where the pending line starts among them, and the lines kept.
#[derive(Clone, Copy, Default)]
pub struct Pen {
    pub count: usize,
    pub start: usize,
    pub lines: usize,
}

// The lent lists of a trace, and where the pen stands in them.
#[derive(Drop)]
pub struct Sheet<'a> {
    pub points: &'a mut [f64],
    pub starts: &'a mut [usize],
    pub sides: &'a mut [usize],
    pub fractions: &'a mut [f64],
    pub samples: &'a mut [usize],
    pub pen: Pen,
}

// Each method says `same_lists`: its contract is all that tells a caller that the lists are the same.
impl<'a> Sheet<'a> {
    ghost use Rattle.grid.specs.Grid.{point_at};
    ghost use Rattle.page.specs.Page.{lists, pen_at, page, has_room, close_to_pending, written, push_page};
    ghost use Rattle.page.specs.Page.{flush_page, flush_unless, zeroed_past};
    ghost use Rattle.page.specs.Sheets.{page_of, outcome_of, same_lists};

    // The pen at the start of the lists.
    pub fn new(
        points: &'a mut [f64],
        starts: &'a mut [usize],
        sides: &'a mut [usize],
        fractions: &'a mut [f64],
        samples: &'a mut [usize],
    ) -> Sheet<'a>
        ensures same { (result.points.ghost_name ≡ points.entry.ghost_name)
            × (result.starts.ghost_name ≡ starts.entry.ghost_name)
            × (result.sides.ghost_name ≡ sides.entry.ghost_name)
            × (result.fractions.ghost_name ≡ fractions.entry.ghost_name)
            × (result.samples.ghost_name ≡ samples.entry.ghost_name) }
        ensures page { page_of result
            ≡ page (lists points.old starts.old sides.old fractions.old samples.old) (pen_at 0 0 0) }
    {
        Sheet {
            points,
            starts,
            sides,
            fractions,
            samples,
            pen: Pen::default(),
        }
    }

    // The pen at the start of the lists again.
    pub fn restart(&mut self)
        ensures same { same_lists self.old self.new }
        ensures page { page_of self.new ≡ page (page_of self.old).lists (pen_at 0 0 0) }
    {
        self.pen = Pen::default();
    }

    // Whether each list has a place for one point more.
    fn has_room(&self) -> bool
        ensures { result ≡ has_room (page_of self.now) }
    {
        let count = self.pen.count;
        count < self.points.len() / 3
            && count < self.sides.len() / 2
            && count < self.fractions.len()
            && count < self.samples.len()
    }

    // Coordinate number k of the points, or NaN past their end.
    fn coordinate(&self, k: usize) -> f64
        ensures { result ≡ get_or self.now.points.now k nan }
    {
        self.points.get(k).copied().unwrap_or(f64::NAN)
    }

    // Point number i, of NaN where the list has no such point: no caller is asked that the pen stand in the lists.
    // Saturated, since 3 * i may not fit: no list reaches so far.
    fn point(&self, i: usize) -> Vector
        ensures { result ≡ point_at self.now.points.now i }
    {
        let at = i.saturating_mul(3);
        Vector {
            x: self.coordinate(at),
            y: self.coordinate(at.saturating_add(1)),
            z: self.coordinate(at.saturating_add(2)),
        }
    }

    // Whether there is a pending point, and the last one is close to c by the tolerance.
    fn close_to_pending(&self, c: TracedPoint, tolerance: f64) -> bool
        ensures { result ≡ close_to_pending tolerance c (page_of self.now) }
    {
        let Pen { count, start, .. } = self.pen;
        start < count && self.point(count - 1).all_close(c.crossing.point, tolerance)
    }

    // One more pending point.
    #[tactic(auto, using(crate::proofs::Writes::two_written, crate::proofs::Writes::three_written), unfolding(crate::specs::Page::written))]
    fn write(&mut self, c: TracedPoint)
        requires { IsTrue (has_room (page_of self.old)) }
        ensures same { same_lists self.old self.new }
        ensures page { page_of self.new ≡ written c (page_of self.old) }
    {
        let i = self.pen.count;
        let Crossing { p, q, t, point } = c.crossing;
        self.points[3 * i..3 * i + 3].copy_from_slice(&[point.x, point.y, point.z]);
        self.sides[2 * i..2 * i + 2].copy_from_slice(&[p, q]);
        self.fractions[i] = t;
        self.samples[i] = c.sample;
        self.pen.count += 1;
    }

    // One more pending point, unless it is close to the last one by the tolerance.
    #[tactic(auto, unfolding(crate::specs::Page::push_page))]
    pub fn push_segment_point(&mut self, c: TracedPoint, tolerance: f64) -> Result<(), Refusal>
        ensures same { same_lists self.old self.new }
        ensures page { outcome_of result self.new ≡ push_page tolerance c (page_of self.old) }
    {
        if self.close_to_pending(c, tolerance) {
            return Ok(());
        }
        if !self.has_room() {
            return Err(Refusal::Full);
        }
        self.write(c);
        Ok(())
    }

    // The pending line is kept, or goes if it has fewer than two points.
    #[tactic(auto, unfolding(crate::specs::Page::flush_page, crate::specs::Page::kept, crate::specs::Page::dropped))]
    pub fn flush_segment(&mut self) -> Result<(), Refusal>
        ensures same { same_lists self.old self.new }
        ensures page { outcome_of result self.new ≡ flush_page (page_of self.old) }
    {
        let Pen {
            count,
            start,
            lines,
        } = self.pen;
        if count.saturating_sub(start) < 2 {
            self.pen.count = start;
            return Ok(());
        }
        if self.starts.len() <= lines {
            return Err(Refusal::Full);
        }
        self.starts[lines] = start;
        self.pen.start = count;
        self.pen.lines += 1;
        Ok(())
    }

    // The same, unless the leg is inside the grid: there the line goes on.
    // With the flag, as both its callers have it: else each of them would make the same test.
    pub fn flush_unless(&mut self, inside: bool) -> Result<(), Refusal>
        ensures same { same_lists self.old self.new }
        ensures page { outcome_of result self.new ≡ flush_unless inside (page_of self.old) }
    {
        if inside { Ok(()) } else { self.flush_segment() }
    }

    // Every place past the points and the lines so far is made zero. Saturated, as in `point`.
    #[tactic(auto, using(crate::proofs::Ends::same_zeroes))]
    pub fn zero_rest(&mut self)
        ensures same { same_lists self.old self.new }
        ensures page { page_of self.new ≡ zeroed_past (page_of self.old) }
    {
        let Pen { count, lines, .. } = self.pen;
        lent::zero_from(self.points, count.saturating_mul(3), 0.0);
        lent::zero_from(self.starts, lines, 0);
        lent::zero_from(self.sides, count.saturating_mul(2), 0);
        lent::zero_from(self.fractions, count, 0.0);
        lent::zero_from(self.samples, count, 0);
    }
}
