//! What bytes are to a file.
ghost use Rattle.std.specs.Prelude.{◌≡◌};
ghost use Rattle.access_file.specs.Tokens.{is_word_byte, is_sign, is_blank};

/// What stands in words beside letters and digits.
const IN_WORDS: [u8; 10] = [b'_', b'-', b'+', b':', b'.', b'[', b']', b'<', b'>', b';'];

const SIGNS: [u8; 5] = [b'(', b')', b'{', b'}', b','];

/// What parts words and says nothing more.
const BLANKS: [u8; 4] = [b' ', b'\t', b'\r', b'\n'];

pub(crate) fn is_word_byte(byte: u8) -> bool
    ensures { result ≡ is_word_byte byte }
{
    byte.is_ascii_alphanumeric() || IN_WORDS.contains(&byte)
}

pub(crate) fn is_sign(byte: u8) -> bool
    ensures { result ≡ is_sign byte }
{
    SIGNS.contains(&byte)
}

pub(crate) fn is_blank(byte: u8) -> bool
    ensures { result ≡ is_blank byte }
{
    BLANKS.contains(&byte)
}
