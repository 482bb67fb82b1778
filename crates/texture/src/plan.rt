// The plan of a texture: rays, and samples per ray (Rules 10.1, 10.2). Each formula has its name in the original.
ghost use Rattle.std.specs.Prelude.{◌≡◌};
ghost use Rattle.refusal.specs.Refusals.{stated};
ghost use Rattle.texture.specs.Plan.{texture_radius, texture_spacing, up_from, samples_along, swirl_rays};
ghost use Rattle.texture.specs.Plan.{radial_sample_count, spiral_turns, spiral_sample_count, rays_of, samples_per_ray};
ghost use Rattle.texture.specs.Plan.{texture_fits, plan};

use float::cast::{to_f64, to_usize};
use float::consts::{EPS, SQRT_2, TAU};
use float::order::{clamp, max};
use float::sign::{abs, at_most, is_finite};
use float::whole::ceil;
use grid::steps_fit;
use param::Cells;
use refusal::Refusal;

// The largest magnitude of a twist, and the most arms.
const MAX_TWIST: f64 = 64.0;

const MAX_ARMS: usize = 64;

// The most rays, and the most samples per ray.
const MAX_COUNT: f64 = 65536.0;

// A texture of pen lines on a surface.
#[derive(Clone, Copy)]
pub enum ParametricSurfaceTexture {
    Grid,
    Swirl { spacing: f64, twist: f64 },
    Spiral { spacing: f64, arms: usize },
}

// How many rays a texture has, and how many samples each.
#[derive(Clone, Copy)]
pub struct PlanCounts {
    pub rays: usize,
    pub samples: usize,
}

// Half the longer axis, times the root of two: a circle that covers the grid.
#[tactic(auto, unfolding(crate::specs::Plan::texture_radius, float::specs::Consts::sqrt2))]
pub fn texture_radius(cells: Cells) -> f64
    ensures { result ≡ texture_radius cells.m cells.n }
{
    max(to_f64(cells.m), to_f64(cells.n)) * 0.5 * SQRT_2
}

// 1.0 stands for a spacing that is not finite or not above EPS.
#[tactic(auto, unfolding(crate::specs::Plan::texture_spacing, float::specs::Consts::eps))]
pub fn texture_spacing(spacing: f64) -> f64
    ensures { result ≡ texture_spacing spacing }
{
    if is_finite(spacing) && EPS < spacing {
        spacing
    } else {
        1.0
    }
}

// x rounded up, and at least `least`.
fn up_from(least: f64, x: f64) -> f64
    ensures { result ≡ up_from least x }
{
    max(ceil(x), least)
}

// As many samples along a length as keep the spacing between neighbours, from 0.05 to 0.5; at least 2.
#[tactic(auto, unfolding(crate::specs::Plan::samples_along))]
fn samples_along(length: f64, spacing: f64) -> f64
    ensures { result ≡ samples_along length spacing }
{
    up_from(2.0, length / clamp(spacing, 0.05, 0.5))
}

// As many rays as keep the spacing between neighbours on the circle; at least 1. Cells and spacing go side by side here
// and below, as the rule's formulas have them.
#[tactic(auto, unfolding(crate::specs::Plan::swirl_rays, float::specs::Consts::tau))]
fn swirl_rays(cells: Cells, spacing: f64) -> f64
    ensures { result ≡ swirl_rays cells.m cells.n spacing }
{
    up_from(1.0, TAU * texture_radius(cells) / spacing)
}

// The samples along a ray of a swirl.
#[tactic(auto, unfolding(crate::specs::Plan::radial_sample_count, float::specs::Consts::tau))]
fn radial_sample_count(cells: Cells, spacing: f64, twist: f64) -> f64
    ensures { result ≡ radial_sample_count cells.m cells.n spacing twist }
{
    let turned = abs(TAU * twist);
    samples_along(texture_radius(cells) * (1.0 + turned), spacing)
}

// As many turns as keep the spacing between them; at least 1.
#[tactic(auto, unfolding(crate::specs::Plan::spiral_turns))]
pub fn spiral_turns(cells: Cells, spacing: f64) -> f64
    ensures { result ≡ spiral_turns cells.m cells.n spacing }
{
    up_from(1.0, texture_radius(cells) / spacing)
}

// The samples along an arm of a spiral.
#[tactic(auto, unfolding(crate::specs::Plan::spiral_sample_count, float::specs::Consts::tau))]
fn spiral_sample_count(cells: Cells, spacing: f64) -> f64
    ensures { result ≡ spiral_sample_count cells.m cells.n spacing }
{
    let radius = texture_radius(cells);
    let turns = spiral_turns(cells, spacing);
    samples_along(radius + radius * TAU * turns * 0.5, spacing)
}

impl ParametricSurfaceTexture {
    // The rays, before they are a count. No arms become one.
    fn rays(self, cells: Cells) -> f64
        ensures { result ≡ rays_of cells.m cells.n self }
    {
        match self {
            Self::Grid => 0.0,
            Self::Swirl { spacing, .. } => swirl_rays(cells, texture_spacing(spacing)),
            Self::Spiral { arms, .. } => to_f64(arms.max(1)),
        }
    }

    // The samples of each ray, before they are a count.
    fn samples_per_ray(self, cells: Cells) -> f64
        ensures { result ≡ samples_per_ray cells.m cells.n self }
    {
        match self {
            Self::Grid => 0.0,
            Self::Swirl { spacing, twist } => {
                radial_sample_count(cells, texture_spacing(spacing), twist)
            }
            Self::Spiral { spacing, .. } => spiral_sample_count(cells, texture_spacing(spacing)),
        }
    }

    // Whether twist and arms are within their bounds.
    fn fits(self) -> bool
        ensures { result ≡ texture_fits self }
    {
        match self {
            Self::Grid => true,
            Self::Swirl { twist, .. } => at_most(twist, MAX_TWIST),
            Self::Spiral { arms, .. } => arms <= MAX_ARMS,
        }
    }
}

// Rays and samples per ray; Grid has none.
#[tactic(auto, unfolding(crate::specs::Plan::plan, crate::specs::Plan::plan_check))]
pub fn plan(texture: ParametricSurfaceTexture, m: usize, n: usize) -> Result<PlanCounts, Refusal>
    ensures { stated result ≡ plan texture m n }
{
    if !steps_fit(m, n) {
        return Err(Refusal::Steps);
    }
    if !texture.fits() {
        return Err(Refusal::Texture);
    }
    let cells = Cells { m, n };
    let rays = texture.rays(cells);
    let samples = texture.samples_per_ray(cells);
    if rays <= MAX_COUNT && samples <= MAX_COUNT {
        Ok(PlanCounts {
            rays: to_usize(rays),
            samples: to_usize(samples),
        })
    } else {
        Err(Refusal::Count)
    }
}
