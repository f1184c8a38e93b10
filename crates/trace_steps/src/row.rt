// Words of one row, stored in another.
ghost use Rattle.std.specs.Prelude.{◌≡◌, ◌+◌, ◌≤◌, length};
ghost use Rattle.rows.specs.Rows.{part, put};

// So many words, from one on, at a place of the row.
pub fn store_part(row: &mut [u32], at: usize, words: &[u32], from: usize, count: usize)
    requires { (at + count ≤ length row.old) × (from + count ≤ length words.now) }
    ensures { row.new ≡ put row.old at (part words.now from count) }
{
    let to = at + count;
    let end = from + count;
    row[at..to].copy_from_slice(&words[from..end]);
}
