// The constants that the rules name. specs/Constants.antt has their bits.

// The finite floats furthest from 0.
pub const LARGEST: f32 = f32::MAX;

pub const LOWEST: f32 = f32::MIN;

// The factor of the matching threshold.
pub const TENTH: f32 = 0.1;

// The least factor of a weight in pruning.
pub const TINY: f32 = 1e-6;

pub const HALF: f32 = 0.5;

pub const TWO: f32 = 2.0;
