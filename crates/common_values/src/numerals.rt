//! Numerals, as Val and Read take them.

ghost use Rattle.std.specs.Prelude.{◌≡◌, ◌≤◌, ◌*◌, ◌+◌, length, IfErr};
ghost use Rattle.common_values.specs.Numerals.{
  IsBounded,
  is_gap_byte as gap_byte,
  next_stage as stage_after,
  after_sign as first_digit,
  with_digit as digit_more,
  greatest_magnitude as limit_of,
  value_at as value_in,
  numeral_of as numeral_in,
  gap_length as gap_in,
  val_of as val_in,
};
ghost use Rattle.common_values.specs.NumeralLaws.{ReadingLaws, ValLaws};

/// Where a numeral stands that is read byte by byte.
#[derive(Clone, Copy, Debug)]
pub enum Stage {
    Start,
    /// Behind a sign: whether it is a minus.
    Signed(bool),
    /// Behind `$`: whether a minus came before.
    Dollar(bool),
    /// Behind a digit: whether a minus came, whether `$` did, and the magnitude so far.
    Digits(bool, bool, u32),
}

/// The greatest magnitude that LongInt has with a minus, and without.
fn greatest_magnitude(is_negative: bool) -> u64
    ensures { result ≡ limit_of is_negative }
{
    if is_negative {
        2_147_483_648
    } else {
        2_147_483_647
    }
}

fn with_digit(is_negative: bool, is_hexadecimal: bool, magnitude: u32, byte: u8) -> Option<Stage>
    ensures { result ≡ digit_more is_negative is_hexadecimal magnitude byte }
{
    let radix: u32 = if is_hexadecimal { 16 } else { 10 };
    let digit = char::from(byte).to_digit(radix)?;
    let more = u64::from(magnitude) * u64::from(radix) + u64::from(digit);
    if more <= greatest_magnitude(is_negative) {
        Some(Stage::Digits(is_negative, is_hexadecimal, more as u32))
    } else {
        None
    }
}

fn after_sign(is_negative: bool, byte: u8) -> Option<Stage>
    ensures { result ≡ first_digit is_negative byte }
{
    match byte {
        b'$' => Some(Stage::Dollar(is_negative)),
        _ => with_digit(is_negative, false, 0, byte),
    }
}

/// Where a numeral stands once it goes on with a byte; None where no numeral does.
fn next_stage(stage: Stage, byte: u8) -> Option<Stage>
    ensures { result ≡ stage_after stage byte }
{
    match stage {
        Stage::Start => match byte {
            b'+' => Some(Stage::Signed(false)),
            b'-' => Some(Stage::Signed(true)),
            _ => after_sign(false, byte),
        },
        Stage::Signed(is_negative) => after_sign(is_negative, byte),
        Stage::Dollar(is_negative) => with_digit(is_negative, true, 0, byte),
        Stage::Digits(is_negative, is_hexadecimal, magnitude) => {
            with_digit(is_negative, is_hexadecimal, magnitude, byte)
        }
    }
}

/// The value of a text that ends in a stage, where that text is a numeral.
fn value_at(stage: Stage) -> Option<i32>
    requires { IsBounded stage }
    ensures { result ≡ value_in stage }
{
    match stage {
        Stage::Digits(true, _, magnitude) => Some((-i64::from(magnitude)) as i32),
        Stage::Digits(false, _, magnitude) => Some(magnitude as i32),
        _ => None,
    }
}

/// The value of a numeral: as written, with its sign, it lies in LongInt. An error is the place, from 1
/// on, of the first byte by which no numeral goes on; where the text only ends too early, the place behind it.
#[tactic(auto, unfolding(crate::specs::Numerals::numeral_of))]
pub fn numeral_of(text: &[u8]) -> Result<i32, usize>
    ensures value { result ≡ numeral_in text.now }
    ensures within { IfErr result (λ place. place ≤ length text.now + 1) }
{
    let mut stage = Stage::Start;
    for (i, byte) in text.iter().enumerate() {
        match next_stage(stage, *byte) {
            Some(next) => stage = next,
            None => return Err(i + 1),
        }
    }
    value_at(stage).ok_or(text.len() + 1)
}

/// A blank or a tab.
pub fn is_gap_byte(byte: u8) -> bool
    ensures { result ≡ gap_byte byte }
{
    matches!(byte, b' ' | b'\t')
}

/// How many blanks and tabs come first.
fn gap_length(text: &[u8]) -> usize
    ensures value { result ≡ gap_in text.now }
    ensures within { result ≤ length text.now }
{
    text.iter().take_while(|byte| is_gap_byte(**byte)).count()
}

/// Val: the value of a text of any blanks and tabs and then a numeral, and code 0. Of another text, 0 and
/// the place of the first byte by which no numeral goes on, or the place behind the text.
pub fn val_of(text: &[u8]) -> (i32, usize)
    ensures { result ≡ val_in text.now }
{
    let gap = gap_length(text);
    let (_, rest) = text.split_at(gap);
    match numeral_of(rest) {
        Ok(value) => (value, 0),
        Err(place) => (0, gap + place),
    }
}

/// The laws of numerals; it does nothing.
pub fn numeral_laws()
    ensures reading { ReadingLaws }
    ensures val { ValLaws }
{}
