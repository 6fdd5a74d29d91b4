//! Kinds of bytes in names and texts. Letters and digits are those of ASCII.

ghost use Rattle.std.specs.Prelude.{◌≡◌};
ghost use Rattle.calculus.specs.Problems.{is_name_byte};
ghost use Rattle.calculus.specs.Text.{is_digit, is_lower, is_space, is_upper, is_word_byte};

/// Whether the byte is a lower-case letter.
pub fn is_lower(byte: u8) -> bool
    ensures { result ≡ is_lower byte }
{
    b'a' <= byte && byte <= b'z'
}

/// Whether the byte is an upper-case letter.
pub fn is_upper(byte: u8) -> bool
    ensures { result ≡ is_upper byte }
{
    b'A' <= byte && byte <= b'Z'
}

/// Whether the byte is a decimal digit.
pub fn is_digit(byte: u8) -> bool
    ensures { result ≡ is_digit byte }
{
    b'0' <= byte && byte <= b'9'
}

/// Whether the byte may stand in a word behind its first letter: a letter, a digit or `_`.
pub fn is_word_byte(byte: u8) -> bool
    ensures { result ≡ is_word_byte byte }
{
    is_lower(byte) || is_upper(byte) || is_digit(byte) || byte == b'_'
}

/// Whether the byte is white space: space, tab, line feed, vertical tab, form feed or carriage return.
pub fn is_space(byte: u8) -> bool
    ensures { result ≡ is_space byte }
{
    byte == b' ' || (b'\t' <= byte && byte <= b'\r')
}

/// Whether the byte may stand in a name: printable ASCII, or a byte of a longer character of UTF-8.
pub fn is_name_byte(byte: u8) -> bool
    ensures { result ≡ is_name_byte byte }
{
    b' ' <= byte && byte != 127
}
