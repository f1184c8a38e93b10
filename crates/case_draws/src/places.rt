// Words of a row, read and stored where there is such a place.

// 0 past the end.
pub fn word(row: &[u32], at: u32) -> u32 {
    row.get(at as usize).copied().unwrap_or(0)
}

// Nothing past the end.
pub fn put(row: &mut [u32], at: u32, word: u32) {
    if let Some(place) = row.get_mut(at as usize) {
        *place = word;
    }
}

// As many words from a place on, or none where not all are there.
pub fn part(row: &[u32], from: u32, count: u32) -> &[u32] {
    let from = from as usize;
    row.get(from..from + count as usize).unwrap_or(&[])
}

// Where the i-th word of the n-th record stands in a row of records of a size.
pub fn nth_place(n: u32, size: u32, i: u32) -> u32 {
    size.wrapping_mul(n).wrapping_add(i)
}

pub fn raise(row: &mut [u32], at: u32, by: u32) {
    put(row, at, word(row, at).wrapping_add(by));
}

pub fn exchange(row: &mut [u32], a: u32, b: u32) {
    let held = word(row, a);
    put(row, a, word(row, b));
    put(row, b, held);
}

// As many words from a place on, the i-th being what `words` gives of i.
pub fn fill<F: Fn(u32) -> u32>(row: &mut [u32], from: u32, count: u32, words: F)
    requires { F.IsAlwaysCallable words }
{
    for i in 0..count {
        put(row, from.wrapping_add(i), words(i));
    }
}

// The n-th record of a row of records of a size.
pub fn fill_nth<F: Fn(u32) -> u32>(row: &mut [u32], n: u32, size: u32, words: F)
    requires { F.IsAlwaysCallable words }
{
    fill(row, nth_place(n, size, 0), size, words);
}
