// Bytes and numbers written into a row from a place on. What is past the row's end is dropped.
ghost use Rattle.std.specs.Prelude.{◌≡◌, [], ◌∷◌, ◌+◌, ◌<◌, length};
ghost use Rattle.text.specs.Text.{decimal_text, last_place, Written};
ghost use Rattle.text.specs.Spelled.{Spelled};

// A row, and the place after what is written. Each function keeps the row's ghost name (`lent`): by it a caller knows what the row holds once the writer is gone.
#[derive(Debug, Drop)]
pub struct Writer<'a> {
    row: &'a mut [u8],
    at: usize,
}

impl<'a> Writer<'a> {
    pub fn new(row: &'a mut [u8], at: usize) -> Writer<'a>
        ensures lent { result.row.ghost_name ≡ row.entry.ghost_name }
        ensures row { result.row.now ≡ row.old }
        ensures at { result.at ≡ at }
    {
        Writer { row, at }
    }

    pub fn place(&self) -> usize
        ensures { result ≡ self.now.at }
    {
        self.at
    }

    pub fn write_byte(&mut self, b: u8)
        requires { self.old.at < last_place }
        ensures lent { self.new.row.ghost_name ≡ self.old.row.ghost_name }
        ensures written { Written self.old.row.now self.old.at (b ∷ []) self.new.row.now self.new.at }
    {
        if self.at < self.row.len() {
            self.row[self.at] = b;
        }
        self.at += 1;
    }

    pub fn write_bytes(&mut self, bytes: &[u8])
        requires { self.old.at + length bytes.now < last_place }
        ensures lent { self.new.row.ghost_name ≡ self.old.row.ghost_name }
        ensures written { Written self.old.row.now self.old.at bytes.now self.new.row.now self.new.at }
    {
        for b in bytes {
            self.write_byte(*b);
        }
    }

    #[tactic(auto, using(crate::specs::SpelledLaws::spelled_written))]
    pub fn write_decimal(&mut self, n: u32)
        requires { self.old.at + 10 < last_place }
        ensures lent { self.new.row.ghost_name ≡ self.old.row.ghost_name }
        ensures written { Written self.old.row.now self.old.at (decimal_text n) self.new.row.now self.new.at }
    {
        let mut digits = [0u8; 10];
        let first = spell(n, &mut digits);
        self.write_bytes(&digits[first..]);
    }
}

// The digits of a number, last of all in a row of ten: the place of the first. Spelled by hand: std's `Display` says which bytes it writes into a `fmt::Write` only where it answers `Ok`, and no clause says that it does.
fn spell(n: u32, row: &mut [u8; 10]) -> usize
    ensures { Spelled n row.new result }
{
    let mut i = 9;
    let mut rest = n;
    while rest > 9 {
        row[i] = b'0' + (rest % 10) as u8;
        rest /= 10;
        i -= 1;
    }
    row[i] = b'0' + rest as u8;
    i
}
