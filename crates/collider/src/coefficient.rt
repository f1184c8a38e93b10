// A coefficient of friction or restitution, and the number of its combining rule.
ghost use Rattle.collider.specs.Views.{loaded_coefficient};

use words::load::{FromRow, load};

#[derive(Clone, Copy, PartialEq, Debug)]
pub struct Coefficient {
    pub value: f32,
    // A number, since a row may hold any word here: a load gives a value for each, and the range test refuses what is no rule.
    pub rule: u32,
}

impl FromRow for Coefficient {
    ghost size = { 2 };

    ghost at = { loaded_coefficient };

    fn from_row(row: &[u32], from: usize) -> Coefficient {
        Coefficient {
            value: load(row, from),
            rule: load(row, from + 1),
        }
    }
}
