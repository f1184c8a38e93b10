// A contact's speculative distance.
use crate::draws::pick;

// 0, 0.1, 1, 2, -0.5, -0, 0.004, infinite, NaN.
const SPECULATIVE: [u32; 16] = [
    0x0000_0000,
    0x0000_0000,
    0x0000_0000,
    0x0000_0000,
    0x0000_0000,
    0x3dcc_cccd,
    0x3dcc_cccd,
    0x3f80_0000,
    0x3f80_0000,
    0x3f80_0000,
    0x4000_0000,
    0xbf00_0000,
    0x8000_0000,
    0x3b83_126f,
    0x7f80_0000,
    0x7fc0_0000,
];

pub fn speculative_word(d: u32) -> u32 {
    pick(&SPECULATIVE, d)
}
