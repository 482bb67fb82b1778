// The Vector operations. A Vector goes in as its three components: C passes them one by one.
ghost use Rattle.std.specs.Prelude.{◌≡◌};
ghost use Rattle.vector.specs.Vectors.{all_close, minus, plus, scaled, vector};
ghost use Rattle.merlontrispa.specs.Vectors.{components};

use vector::Vector;

// A Vector as C sees it. Its own type and no `Vector`: the header has it by this name.
#[repr(C)]
#[derive(Clone, Copy)]
pub struct Components {
    pub x: f64,
    pub y: f64,
    pub z: f64,
}

impl From<Vector> for Components {
    fn from(a: Vector) -> Components
        ensures { result ≡ components a }
    {
        Components {
            x: a.x,
            y: a.y,
            z: a.z,
        }
    }
}

fn from_c(x: f64, y: f64, z: f64) -> Vector
    ensures { result ≡ vector x y z }
{
    Vector { x, y, z }
}

#[unsafe(no_mangle)]
pub extern "C" fn mt_vector_add(ax: f64, ay: f64, az: f64, bx: f64, by: f64, bz: f64) -> Components
    ensures { result ≡ components (plus (vector ax ay az) (vector bx by bz)) }
{
    Components::from(from_c(ax, ay, az).add(from_c(bx, by, bz)))
}

#[unsafe(no_mangle)]
pub extern "C" fn mt_vector_sub(ax: f64, ay: f64, az: f64, bx: f64, by: f64, bz: f64) -> Components
    ensures { result ≡ components (minus (vector ax ay az) (vector bx by bz)) }
{
    Components::from(from_c(ax, ay, az).sub(from_c(bx, by, bz)))
}

#[unsafe(no_mangle)]
pub extern "C" fn mt_vector_mul_scalar(ax: f64, ay: f64, az: f64, s: f64) -> Components
    ensures { result ≡ components (scaled (vector ax ay az) s) }
{
    Components::from(from_c(ax, ay, az).mul_scalar(s))
}

#[unsafe(no_mangle)]
pub extern "C" fn mt_vector_all_close(
    ax: f64,
    ay: f64,
    az: f64,
    bx: f64,
    by: f64,
    bz: f64,
    tolerance: f64,
) -> bool
    ensures { result ≡ all_close (vector ax ay az) (vector bx by bz) tolerance }
{
    from_c(ax, ay, az).all_close(from_c(bx, by, bz), tolerance)
}
