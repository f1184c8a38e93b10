// Marks as words, and runs of words.
ghost use Rattle.std.specs.Prelude.{◌≡◌, ◌+◌, ◌*◌, ◌≤◌, ◌<◌, length};
ghost use Rattle.rows.specs.Rows.{part, put};
ghost use Rattle.words.specs.Words.{word_at, is_mark, where_set, mark_word};

// A mark's word: 1 for what holds.
pub fn mark_word(b: bool) -> u32
    ensures { result ≡ mark_word b }
{
    u32::from(b)
}

// The word at a place is a mark.
pub fn mark_fits(words: &[u32], at: usize) -> bool
    requires { at < length words.now }
    ensures { result ≡ is_mark (word_at words.now at) }
{
    words[at] < 2
}

// A mark, and what is asked where it is 1.
pub fn where_set(mark: u32, asked: bool) -> bool
    ensures { result ≡ where_set mark asked }
{
    match mark {
        0 => true,
        1 => asked,
        _ => false,
    }
}

// The words of a struct, as an array that is then made the struct.
pub fn load_words(g: &[u32], at: usize, out: &mut [u32])
    requires { at + length out.old ≤ length g.now }
    ensures { out.new ≡ part g.now at (length out.old) }
{
    let end = at + out.len();
    out.copy_from_slice(&g[at..end]);
}

// A struct is made an array of its words, and this stores them.
pub fn store_words(g: &mut [u32], at: usize, ws: &[u32])
    requires { at + length ws.now ≤ length g.old }
    ensures { g.new ≡ put g.old at ws.now }
{
    let end = at + ws.len();
    g[at..end].copy_from_slice(ws);
}

// n records of that many words stand in the row; one more is stored behind them. Answers how many there are then.
pub fn append<const N: usize>(row: &mut [u32], n: usize, words: [u32; N]) -> usize
    requires { (0 < N) × (n * N + N ≤ length row.old) }
    ensures stored { row.new ≡ put row.old (n * N) words.entry }
    ensures count { result ≡ n + 1 }
{
    store_words(row, n * N, &words);
    n + 1
}
