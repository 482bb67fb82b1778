// The float helpers, each a function of its own because C calls it by its name.
ghost use Rattle.std.specs.Prelude.{◌≡◌};
ghost use Rattle.std.specs.Float.Ieee.{to_unsigned};
ghost use Rattle.float.specs.Cast.{nat_float};
ghost use Rattle.float.specs.Order.{clamped, larger, total_order};
ghost use Rattle.float.specs.Sign.{absolute, at_most, is_finite};
ghost use Rattle.float.specs.Whole.{ceil_z, ceiled, floor_z, rounded};
ghost use Rattle.merlontrispa.specs.Floats.{ordering_number};

#[unsafe(no_mangle)]
pub extern "C" fn mt_abs(x: f64) -> f64
    ensures { result ≡ absolute x }
{
    float::sign::abs(x)
}

#[unsafe(no_mangle)]
pub extern "C" fn mt_is_finite(x: f64) -> bool
    ensures { result ≡ is_finite x }
{
    float::sign::is_finite(x)
}

#[unsafe(no_mangle)]
pub extern "C" fn mt_at_most(x: f64, top: f64) -> bool
    ensures { result ≡ at_most x top }
{
    float::sign::at_most(x, top)
}

#[unsafe(no_mangle)]
pub extern "C" fn mt_max(x: f64, y: f64) -> f64
    ensures { result ≡ larger x y }
{
    float::order::max(x, y)
}

#[unsafe(no_mangle)]
pub extern "C" fn mt_clamp(x: f64, lo: f64, hi: f64) -> f64
    ensures { result ≡ clamped x lo hi }
{
    float::order::clamp(x, lo, hi)
}

// -1 where x precedes y, 1 where y precedes x, 0 where they are equal.
#[unsafe(no_mangle)]
pub extern "C" fn mt_total_cmp(x: f64, y: f64) -> i32
    ensures { result ≡ ordering_number (total_order x y) }
{
    float::order::total_cmp(x, y) as i32
}

#[unsafe(no_mangle)]
pub extern "C" fn mt_floor_i64(x: f64) -> i64
    ensures { result ≡ floor_z x }
{
    float::whole::floor_i64(x)
}

#[unsafe(no_mangle)]
pub extern "C" fn mt_ceil_i64(x: f64) -> i64
    ensures { result ≡ ceil_z x }
{
    float::whole::ceil_i64(x)
}

#[unsafe(no_mangle)]
pub extern "C" fn mt_round(x: f64) -> f64
    ensures { result ≡ rounded x }
{
    float::whole::round(x)
}

#[unsafe(no_mangle)]
pub extern "C" fn mt_ceil(x: f64) -> f64
    ensures { result ≡ ceiled x }
{
    float::whole::ceil(x)
}

#[unsafe(no_mangle)]
pub extern "C" fn mt_to_usize(x: f64) -> usize
    ensures { result ≡ to_unsigned 64 x }
{
    float::cast::to_usize(x)
}

#[unsafe(no_mangle)]
pub extern "C" fn mt_to_f64(n: usize) -> f64
    ensures { result ≡ nat_float n }
{
    float::cast::to_f64(n)
}
