// A value of the words at a place of a row.
ghost use Rattle.std.specs.Prelude.{◌≡◌, ℕ, ◌+◌, ◌≤◌, ◌<◌, List, length};
ghost use Rattle.words.specs.Words.{word_at, float_at, vec3_at, quat_at, pose_at, mark_at, if_marked, present_at};

use math::bits::float_of;
use math::pose::Pose;
use math::quat::Quat;
use math::vec::Vec3;

// A value that so many words of a row make.
pub trait FromRow {
    ghost size: { ℕ };

    ghost at: { List ℕ → ℕ → Self };

    fn from_row(row: &[u32], from: usize) -> Self
        requires { from + size ≤ length row.now }
        ensures { result ≡ at row.now from };
}

impl FromRow for u32 {
    ghost size = { 1 };

    ghost at = { word_at };

    fn from_row(row: &[u32], from: usize) -> u32 {
        row[from]
    }
}

// A word as a number of places.
impl FromRow for usize {
    ghost size = { 1 };

    ghost at = { word_at };

    fn from_row(row: &[u32], from: usize) -> usize {
        row[from] as usize
    }
}

impl FromRow for f32 {
    ghost size = { 1 };

    ghost at = { float_at };

    fn from_row(row: &[u32], from: usize) -> f32 {
        float_of(row[from])
    }
}

// A mark holds where it is 1.
impl FromRow for bool {
    ghost size = { 1 };

    ghost at = { mark_at };

    fn from_row(row: &[u32], from: usize) -> bool {
        row[from] == 1
    }
}

impl FromRow for Vec3 {
    ghost size = { 3 };

    ghost at = { vec3_at };

    fn from_row(row: &[u32], from: usize) -> Vec3 {
        Vec3 {
            x: f32::from_row(row, from),
            y: f32::from_row(row, from + 1),
            z: f32::from_row(row, from + 2),
        }
    }
}

impl FromRow for Quat {
    ghost size = { 4 };

    ghost at = { quat_at };

    fn from_row(row: &[u32], from: usize) -> Quat {
        Quat {
            x: f32::from_row(row, from),
            y: f32::from_row(row, from + 1),
            z: f32::from_row(row, from + 2),
            w: f32::from_row(row, from + 3),
        }
    }
}

impl FromRow for Pose {
    ghost size = { 7 };

    ghost at = { pose_at };

    fn from_row(row: &[u32], from: usize) -> Pose {
        Pose {
            position: Vec3::from_row(row, from),
            rotation: Quat::from_row(row, from + 3),
        }
    }
}

// A presence mark, and behind a mark of 1 the value.
impl<T: FromRow> FromRow for Option<T> {
    ghost size = { 1 + T.size };

    ghost at = { if_marked T.at };

    #[tactic(auto, unfolding(crate::specs::Words::if_marked))]
    fn from_row(row: &[u32], from: usize) -> Option<T> {
        if bool::from_row(row, from) {
            return Some(T::from_row(row, from + 1));
        }
        None
    }
}

pub fn load<T: FromRow>(row: &[u32], from: usize) -> T
    requires { from + T.size ≤ length row.now }
    ensures { result ≡ T.at row.now from }
{
    T::from_row(row, from)
}

// A record that begins with its presence mark.
pub fn load_present<T: FromRow>(row: &[u32], from: usize) -> Option<T>
    requires { (0 < T.size) × (from + T.size ≤ length row.now) }
    ensures { result ≡ present_at T.at row.now from }
{
    if bool::from_row(row, from) {
        return Some(T::from_row(row, from));
    }
    None
}
