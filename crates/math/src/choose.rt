// The larger and the smaller of two floats: `f32::max` and `f32::min`, with the sign of zero fixed.
#![tactic(auto, unfolding(crate::specs::Choose::maximum, crate::specs::Choose::minimum))]

ghost use Rattle.std.specs.Prelude.{◌≡◌, cond, is_nan};
ghost use Rattle.math.specs.Choose.{maximum, minimum};

// b where it is the one to take. One NaN is ignored.
fn choose(a: f32, b: f32, take_b: bool) -> f32
    ensures { result ≡ cond (is_nan a) b (cond take_b b a) }
{
    if a.is_nan() {
        return b;
    }
    if take_b { b } else { a }
}

// On equal operands the left is taken.
pub fn maximum(a: f32, b: f32) -> f32
    ensures { result ≡ maximum a b }
{
    choose(a, b, a < b)
}

pub fn minimum(a: f32, b: f32) -> f32
    ensures { result ≡ minimum a b }
{
    choose(a, b, b < a)
}
