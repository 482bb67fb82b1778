// Plans, angles and sample points of textures. A texture goes in as its kind and its numbers: 0 Grid,
// 1 Swirl with spacing and twist, any other Spiral with spacing and arms.
// C has no enum with values: a number for the kind, and all that some kind takes, stay parameters side by side, and an
// answer is a struct with a refusal's number, and zeros beside one.
ghost use Rattle.std.specs.Prelude.{◌≡◌};
ghost use Rattle.refusal.specs.Refusals.{stated};
ghost use Rattle.texture.specs.Plan.{plan};
ghost use Rattle.texture.specs.Sample.{angle, sample_point};
ghost use Rattle.merlontrispa.specs.Textures.{texture_of, ray_counts, ray_angle, ray_point};

use param::ParamPoint;
use refusal::Refusal;
use texture::plan::{ParametricSurfaceTexture, PlanCounts, plan};
use texture::sample::{angle, sample_point};

// Rays and samples per ray, or the number of a refusal.
#[repr(C)]
#[derive(Clone, Copy)]
pub struct RayCounts {
    pub refusal: u8,
    pub rays: usize,
    pub samples: usize,
}

// The angle of a sample, or the number of a refusal.
#[repr(C)]
#[derive(Clone, Copy)]
pub struct RayAngle {
    pub refusal: u8,
    pub angle: f64,
}

// The point of a sample, or the number of a refusal.
#[repr(C)]
#[derive(Clone, Copy)]
pub struct RayPoint {
    pub refusal: u8,
    pub u: f64,
    pub v: f64,
}

fn texture_of(kind: u8, spacing: f64, twist: f64, arms: usize) -> ParametricSurfaceTexture
    ensures { result ≡ texture_of kind spacing twist arms }
{
    match kind {
        0 => ParametricSurfaceTexture::Grid,
        1 => ParametricSurfaceTexture::Swirl { spacing, twist },
        _ => ParametricSurfaceTexture::Spiral { spacing, arms },
    }
}

impl From<Result<PlanCounts, Refusal>> for RayCounts {
    fn from(answer: Result<PlanCounts, Refusal>) -> RayCounts
        ensures { result ≡ ray_counts (stated answer) }
    {
        match answer {
            Ok(counts) => RayCounts {
                refusal: 0,
                rays: counts.rays,
                samples: counts.samples,
            },
            Err(refusal) => RayCounts {
                refusal: u8::from(refusal),
                rays: 0,
                samples: 0,
            },
        }
    }
}

impl From<Result<f64, Refusal>> for RayAngle {
    fn from(answer: Result<f64, Refusal>) -> RayAngle
        ensures { result ≡ ray_angle (stated answer) }
    {
        match answer {
            Ok(angle) => RayAngle { refusal: 0, angle },
            Err(refusal) => RayAngle {
                refusal: u8::from(refusal),
                angle: 0.0,
            },
        }
    }
}

impl From<Result<ParamPoint, Refusal>> for RayPoint {
    fn from(answer: Result<ParamPoint, Refusal>) -> RayPoint
        ensures { result ≡ ray_point (stated answer) }
    {
        match answer {
            Ok(point) => RayPoint {
                refusal: 0,
                u: point.u,
                v: point.v,
            },
            Err(refusal) => RayPoint {
                refusal: u8::from(refusal),
                u: 0.0,
                v: 0.0,
            },
        }
    }
}

#[unsafe(no_mangle)]
pub extern "C" fn mt_plan(
    kind: u8,
    spacing: f64,
    twist: f64,
    arms: usize,
    m: usize,
    n: usize,
) -> RayCounts
    ensures { result ≡ ray_counts (plan (texture_of kind spacing twist arms) m n) }
{
    RayCounts::from(plan(texture_of(kind, spacing, twist, arms), m, n))
}

#[unsafe(no_mangle)]
pub extern "C" fn mt_angle(
    kind: u8,
    spacing: f64,
    twist: f64,
    arms: usize,
    m: usize,
    n: usize,
    ray: usize,
    sample: usize,
) -> RayAngle
    ensures { result ≡ ray_angle (angle (texture_of kind spacing twist arms) m n ray sample) }
{
    RayAngle::from(angle(texture_of(kind, spacing, twist, arms), m, n, ray, sample))
}

#[unsafe(no_mangle)]
pub extern "C" fn mt_sample_point(
    kind: u8,
    spacing: f64,
    twist: f64,
    arms: usize,
    m: usize,
    n: usize,
    ray: usize,
    sample: usize,
    cosine: f64,
    sine: f64,
) -> RayPoint
    ensures { result ≡ ray_point (sample_point (texture_of kind spacing twist arms) m n ray sample cosine sine) }
{
    let texture = texture_of(kind, spacing, twist, arms);
    RayPoint::from(sample_point(texture, m, n, ray, sample, cosine, sine))
}
