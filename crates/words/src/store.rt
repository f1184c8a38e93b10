// A value's words, stored at a place of a row.
ghost use Rattle.std.specs.Prelude.{◌≡◌, ℕ, ◌+◌, ◌≤◌, List, length};
ghost use Rattle.rows.specs.Rows.{put};
ghost use Rattle.words.specs.Words.{one_word, float_words};

use math::bits::bits_of;

// A value that is so many words of a row.
pub trait ToRow {
    ghost words: { Self → List ℕ };

    fn to_row(self, row: &mut [u32], at: usize)
        requires { at + length (words self) ≤ length row.old }
        ensures { row.new ≡ put row.old at (words self) };
}

impl ToRow for u32 {
    ghost words = { one_word };

    #[tactic(auto, using(rows::specs::Laws::put_one))]
    fn to_row(self, row: &mut [u32], at: usize) {
        row[at] = self;
    }
}

impl ToRow for f32 {
    ghost words = { float_words };

    #[tactic(auto, using(rows::specs::Laws::put_one))]
    fn to_row(self, row: &mut [u32], at: usize) {
        row[at] = bits_of(self);
    }
}

pub fn store<T: ToRow>(row: &mut [u32], at: usize, value: T)
    requires { at + length (T.words value) ≤ length row.old }
    ensures { row.new ≡ put row.old at (T.words value) }
{
    value.to_row(row, at)
}
