// The angle of a ray's sample, and its point from a lent cosine and sine (Rules 10.3, 10.4).
ghost use Rattle.std.specs.Prelude.{◌≡◌};
ghost use Rattle.refusal.specs.declared.Refusal.TheVariants as refusals;
ghost use Rattle.refusal.specs.Refusals.{stated, unless, passed};
ghost use Rattle.texture.specs.Plan.{centre};
ghost use Rattle.texture.specs.Sample.{part, base_angle, turn_of, angle_of, distance_of, point_of, is_there};
ghost use Rattle.texture.specs.Sample.{direction_fits, sample_of, angle, sample_point};

use crate::plan::{
    ParametricSurfaceTexture, PlanCounts, plan, spiral_turns, texture_radius, texture_spacing,
};
use float::cast::to_f64;
use float::consts::TAU;
use float::sign::at_most;
use param::{Cells, ParamPoint};
use refusal::Refusal;

// Sample `index` of a ray, of a texture that has these counts on a grid of these cells.
#[derive(Clone, Copy)]
struct Sample {
    texture: ParametricSurfaceTexture,
    cells: Cells,
    counts: PlanCounts,
    ray: usize,
    index: usize,
}

// The cosine and the sine of an angle.
#[derive(Clone, Copy)]
struct Direction {
    cosine: f64,
    sine: f64,
}

// The part i / count of a whole.
fn part(i: usize, count: usize) -> f64
    ensures { result ≡ part i count }
{
    to_f64(i) / to_f64(count)
}

// The middle of an axis.
fn centre(steps: usize) -> f64
    ensures { result ≡ centre steps }
{
    to_f64(steps) * 0.5
}

impl Sample {
    // Refusal 8: there is this ray, and the ray has this sample, the last too.
    fn check(self) -> Result<(), Refusal>
        ensures { result ≡ unless (is_there self.counts self.ray self.index) refusals.NotThere passed }
    {
        if self.ray < self.counts.rays && self.index <= self.counts.samples {
            Ok(())
        } else {
            Err(Refusal::NotThere)
        }
    }

    // The angle at which its ray starts.
    #[tactic(auto, unfolding(float::specs::Consts::tau))]
    fn base_angle(self) -> f64
        ensures { result ≡ base_angle self.counts.rays self.ray }
    {
        part(self.ray, self.counts.rays) * TAU
    }

    // How far its angle is from its ray's: the twist for a swirl, the turns for a spiral.
    #[tactic(auto, unfolding(float::specs::Consts::tau))]
    fn turn(self) -> f64
        ensures { result
            ≡ turn_of self.texture self.cells.m self.cells.n self.counts.samples self.index }
    {
        let count = self.counts.samples;
        match self.texture {
            ParametricSurfaceTexture::Grid => 0.0,
            ParametricSurfaceTexture::Swirl { twist, .. } => {
                TAU * twist * to_f64(self.index) / to_f64(count)
            }
            ParametricSurfaceTexture::Spiral { spacing, .. } => {
                let turns = spiral_turns(self.cells, texture_spacing(spacing));
                part(self.index, count) * TAU * turns
            }
        }
    }

    // Its angle: where its ray starts, and then its turn.
    #[tactic(auto, unfolding(crate::specs::Sample::angle_of))]
    fn angle(self) -> f64
        ensures { result
            ≡ angle_of self.texture self.cells.m self.cells.n self.counts self.ray self.index }
    {
        self.base_angle() + self.turn()
    }

    // How far it is from the centre: outward for a swirl, inward for a spiral.
    fn distance(self) -> f64
        ensures { result
            ≡ distance_of self.texture self.cells.m self.cells.n self.counts.samples self.index }
    {
        let count = self.counts.samples;
        let radius = texture_radius(self.cells);
        match self.texture {
            ParametricSurfaceTexture::Grid => 0.0,
            ParametricSurfaceTexture::Swirl { .. } => radius * to_f64(self.index) / to_f64(count),
            ParametricSurfaceTexture::Spiral { .. } => radius * (1.0 - part(self.index, count)),
        }
    }

    // Its distance from the centre, along the cosine and the sine.
    #[tactic(auto, unfolding(crate::specs::Sample::point_of))]
    fn point(self, direction: Direction) -> ParamPoint
        ensures { result ≡ point_of self.texture self.cells.m self.cells.n self.counts.samples self.index
            direction.cosine direction.sine }
    {
        let r = self.distance();
        ParamPoint {
            u: centre(self.cells.m) + direction.cosine * r,
            v: centre(self.cells.n) + direction.sine * r,
        }
    }
}

impl Direction {
    // Refusal 7: both are finite and from -1 to 1.
    fn check(self) -> Result<(), Refusal>
        ensures { result ≡ unless (direction_fits self.cosine self.sine) refusals.Direction passed }
    {
        if at_most(self.cosine, 1.0) && at_most(self.sine, 1.0) {
            Ok(())
        } else {
            Err(Refusal::Direction)
        }
    }
}

// Sample `index` of a ray, where its texture has a plan. Whether it is there is not tested: refusal 7 comes before 8.
#[tactic(auto, unfolding(crate::specs::Plan::plan))]
fn sample_of(
    texture: ParametricSurfaceTexture,
    m: usize,
    n: usize,
    ray: usize,
    index: usize,
) -> Result<Sample, Refusal>
    ensures { stated result ≡ sample_of texture m n ray index }
{
    let counts = plan(texture, m, n)?;
    Ok(Sample {
        texture,
        cells: Cells { m, n },
        counts,
        ray,
        index,
    })
}

// The angle of a sample of a ray.
#[tactic(auto, unfolding(crate::specs::Plan::plan_check, crate::specs::Sample::angle))]
pub fn angle(
    texture: ParametricSurfaceTexture,
    m: usize,
    n: usize,
    ray: usize,
    sample: usize,
) -> Result<f64, Refusal>
    ensures { stated result ≡ angle texture m n ray sample }
{
    let sample = sample_of(texture, m, n, ray, sample)?;
    sample.check()?;
    Ok(sample.angle())
}

// The point of a sample of a ray, from the cosine and the sine of its angle.
#[tactic(auto, unfolding(crate::specs::Plan::plan_check, crate::specs::Sample::sample_point))]
pub fn sample_point(
    texture: ParametricSurfaceTexture,
    m: usize,
    n: usize,
    ray: usize,
    sample: usize,
    cosine: f64,
    sine: f64,
) -> Result<ParamPoint, Refusal>
    ensures { stated result ≡ sample_point texture m n ray sample cosine sine }
{
    let sample = sample_of(texture, m, n, ray, sample)?;
    let direction = Direction { cosine, sine };
    direction.check()?;
    sample.check()?;
    Ok(sample.point(direction))
}
