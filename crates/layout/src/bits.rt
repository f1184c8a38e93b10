// The bit words of a step: a part for each worker, a bit for each contact.

// Words of a part, at most: a bit for each of `MOST_CONTACTS`.
pub const MOST_BLOCKS: usize = 4;
