// The draws that the lists are made of: by a key and the choice's number, through xorshift. The seed is 20263.
use case_draws::draws::{common, xorshift};

pub fn draw(key: u32, choice: u32) -> u32 {
    let a = choice
        .wrapping_mul(2654435769)
        .wrapping_add(key)
        .wrapping_add(20263);
    let b = xorshift(a).wrapping_mul(2246822519);
    let c = xorshift(b).wrapping_mul(3266489917);
    xorshift(c)
}

// A float's word; one in 64 is NaN or infinite.
pub fn float(key: u32, choice: u32) -> u32 {
    let d = draw(key, choice);
    match d / 8 % 128 {
        0 => 0x7fc0_0000,
        1 => 0x7f80_0000,
        _ => common(d),
    }
}
