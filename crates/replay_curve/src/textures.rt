// Plans, angles and sample points.
use cases::answers::told;
use cases::words::{field, float, is_told, number, same_float, word};
use texture::plan::ParametricSurfaceTexture;

// Its kind (0 a grid, 1 a swirl, any other a spiral), spacing, twist and arms.
// No twin of merlontrispa's: that one is given numbers by C, and this one reads words.
fn texture_of(numbers: &[u64]) -> ParametricSurfaceTexture {
    let spacing = float(numbers, 3);
    match word(numbers, 2) {
        0 => ParametricSurfaceTexture::Grid,
        1 => ParametricSurfaceTexture::Swirl {
            spacing,
            twist: float(numbers, 4),
        },
        _ => ParametricSurfaceTexture::Spiral {
            spacing,
            arms: number(numbers, 5),
        },
    }
}

// Each reads its numbers itself: a struct of them would name and fill each for two calls.
pub fn plan(case: &[u64]) -> bool {
    let numbers = field(case, 0);
    let recorded = field(case, 1);
    let (m, n) = (number(numbers, 6), number(numbers, 7));
    let answer = texture::plan::plan(texture_of(numbers), m, n);
    told(recorded, answer, |counts| {
        is_told(recorded, counts.rays, counts.samples)
    })
}

pub fn angle(case: &[u64]) -> bool {
    let numbers = field(case, 0);
    let recorded = field(case, 1);
    let (m, n) = (number(numbers, 6), number(numbers, 7));
    let (ray, sample) = (number(numbers, 8), number(numbers, 9));
    let answer = texture::sample::angle(texture_of(numbers), m, n, ray, sample);
    told(recorded, answer, |angle| {
        same_float(angle, float(recorded, 1))
    })
}

pub fn sample_point(case: &[u64]) -> bool {
    let numbers = field(case, 0);
    let recorded = field(case, 1);
    let (m, n) = (number(numbers, 6), number(numbers, 7));
    let (ray, sample) = (number(numbers, 8), number(numbers, 9));
    let (cosine, sine) = (float(numbers, 10), float(numbers, 11));
    let texture = texture_of(numbers);
    let answer = texture::sample::sample_point(texture, m, n, ray, sample, cosine, sine);
    told(recorded, answer, |point| {
        // By their bits: `==` would take -0.0 for 0.0.
        same_float(point.u, float(recorded, 1)) && same_float(point.v, float(recorded, 2))
    })
}
