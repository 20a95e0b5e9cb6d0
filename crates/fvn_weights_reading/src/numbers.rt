//! Numbers as they are written: one to nine decimal digits.
ghost use Rattle.std.specs.Prelude.{◌≡◌, ◌≤◌, length, IsTrue};
ghost use Rattle.std.specs.List.{list_all};
ghost use Rattle.fvn_weights_reading.specs.Spelling.{is_digit, is_short, is_number_text, is_number, number};
ghost use Rattle.fvn_weights_reading.specs.inner.Split.{numbers_in};

use crate::limits::NUMBER_DIGITS;
use fvn_syntax::Piece;

// Whether a byte is a decimal digit.
fn is_digit(byte: u8) -> bool
    ensures { result ≡ is_digit byte }
{
    48 <= byte && byte <= 57
}

// Whether all bytes are digits.
fn are_digits(text: &[u8]) -> bool
    ensures { result ≡ list_all is_digit text.now }
{
    for byte in text {
        let digit = is_digit(*byte);
        if !digit {
            return false;
        }
    }
    true
}

// Whether a text is as long as a number may be.
fn is_short(text: &[u8]) -> bool
    ensures { result ≡ is_short text.now }
{
    1 <= text.len() && text.len() <= NUMBER_DIGITS
}

// Whether a text is that of a number.
fn is_number_text(text: &[u8]) -> bool
    ensures { result ≡ is_number_text text.now }
{
    is_short(text) && are_digits(text)
}

/// Whether a piece is a number.
pub(crate) fn is_number(piece: &Piece<'_>) -> bool
    ensures { result ≡ is_number piece.now }
{
    piece.is_word() && is_number_text(piece.text())
}

/// How many of the first pieces are numbers.
pub(crate) fn count_numbers(row: &[Piece<'_>]) -> usize
    ensures exact { result ≡ numbers_in row.now }
    ensures within { result ≤ length row.now }
{
    let mut count: usize = 0;
    for piece in row {
        let number = is_number(piece);
        if !number {
            return count;
        }
        count += 1;
    }
    count
}

/// The number that digits write.
pub(crate) fn number(digits: &[u8]) -> u64
    requires { IsTrue (is_number_text digits.now) }
    ensures { result ≡ number digits.now }
{
    let mut value: u64 = 0;
    for byte in digits {
        value = 10 * value + u64::from(*byte - 48);
    }
    value
}
