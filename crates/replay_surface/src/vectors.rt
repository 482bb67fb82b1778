// The Vector operations.
use cases::words::{field, float, same_float, word};
use vector::Vector;

// The Vector whose components are words 0, 1 and 2, by name, since three in a list are no plainer.
fn vector_of(words: &[u64]) -> Vector {
    Vector {
        x: float(words, 0),
        y: float(words, 1),
        z: float(words, 2),
    }
}

// By their bits: `==` would take -0.0 for 0.0, and a NaN for no other.
fn same_vector(a: Vector, b: Vector) -> bool {
    same_float(a.x, b.x) && same_float(a.y, b.y) && same_float(a.z, b.z)
}

// Operation 0 add, 1 sub, 2 mul_scalar by the x of b, any other all_close at the tolerance that follows it.
pub fn vector(case: &[u64]) -> bool {
    let numbers = field(case, 0);
    let a = vector_of(field(case, 1));
    let b = vector_of(field(case, 2));
    let recorded = field(case, 3);
    match word(numbers, 2) {
        0 => same_vector(a.add(b), vector_of(recorded)),
        1 => same_vector(a.sub(b), vector_of(recorded)),
        2 => same_vector(a.mul_scalar(b.x), vector_of(recorded)),
        _ => a.all_close(b, float(numbers, 3)) == (word(recorded, 0) == 1),
    }
}
