// Words and numbers of a text, by their place. A place past the end is taken: nothing is read there.
ghost use Rattle.std.specs.Prelude.{◌<◌};
ghost use Rattle.text.specs.Answers.{ByteIs, ByteRead, HexDigitRead, WordRead, DigitRead, NextValue, NumberRead};

// Whether the byte stands there; past the end none does.
pub fn byte_is(text: &[u8], at: usize, b: u8) -> bool
    ensures { ByteIs text.now at b result }
{
    text.get(at) == Some(&b)
}

// The place after the byte, if it stands there.
pub fn expect(text: &[u8], at: usize, b: u8) -> Option<usize>
    ensures { ByteRead text.now at b result }
{
    byte_is(text, at, b).then(|| at + 1)
}

// The value of a hexadecimal digit of either case.
#[tactic(auto, using(crate::proofs::WordLaws::hex_digit_read))]
fn hex_digit(b: u8) -> Option<u32>
    ensures { HexDigitRead b result }
{
    char::from(b).to_digit(16)
}

// Eight digits.
#[tactic(auto, using(crate::proofs::WordLaws::word_laws))]
pub fn read_word(text: &[u8], at: usize) -> Option<u32>
    ensures { WordRead text.now at result }
{
    let mut value = 0;
    for b in text.get(at..)?.first_chunk::<8>()? {
        value = value * 16 + hex_digit(*b)?;
    }
    Some(value)
}

// A number's value and the place after its last digit. No `Checked` of trace_lines: no range is known here, so that `fits` would be true of each.
#[derive(Clone, Copy, PartialEq, Eq, Debug)]
pub struct Number {
    pub value: u32,
    pub next: usize,
}

// The value of a decimal digit.
fn decimal_digit(b: u8) -> Option<u32>
    ensures { DigitRead b result }
{
    char::from(b).to_digit(10)
}

// The value with one digit more, if it is still a number of 32 bits.
fn next_value(v: u32, d: u32) -> Option<u32>
    requires { d < 10 }
    ensures { NextValue v d result }
{
    v.checked_mul(10)?.checked_add(d)
}

// All digits from a place on, as far as they go.
#[tactic(auto, using(crate::specs::NumberLaws::number_laws))]
pub fn read_decimal(text: &[u8], at: usize) -> Option<Number>
    ensures { NumberRead text.now at result }
{
    let mut value = 0;
    let mut number = None;
    for i in at..text.len() {
        let Some(d) = decimal_digit(text[i]) else {
            return number;
        };
        value = next_value(value, d)?;
        number = Some(Number { value, next: i + 1 });
    }
    number
}
