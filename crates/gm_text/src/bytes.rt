//! The kinds of bytes of which tokens are made.

ghost use Rattle.std.specs.Prelude.{◌≡◌};
ghost use Rattle.gm_model.specs.Tokens as tokens;

pub fn is_blank(b: u8) -> bool
    ensures { result ≡ tokens.is_blank b }
{
    matches!(b, b' ' | b'\t' | b'\n' | b'\r')
}

pub fn is_digit(b: u8) -> bool
    ensures { result ≡ tokens.is_digit b }
{
    matches!(b, b'0'..=b'9')
}

pub fn is_letter(b: u8) -> bool
    ensures { result ≡ tokens.is_letter b }
{
    matches!(b, b'a'..=b'z') || matches!(b, b'A'..=b'Z')
}

// Small letters are tested first, as most bytes of names are.
pub fn is_name_byte(b: u8) -> bool
    ensures { result ≡ tokens.is_name_byte b }
{
    is_letter(b) || is_digit(b) || b == b'_'
}

pub fn is_sign(b: u8) -> bool
    ensures { result ≡ tokens.is_sign b }
{
    matches!(
        b,
        b'<' | b'>'
            | b'('
            | b')'
            | b'-'
            | b'+'
            | b'*'
            | b'/'
            | b'%'
            | b'='
            | b'.'
            | b','
            | b':'
            | b'@'
    )
}

pub fn is_two_byte_sign(b: u8, c: u8) -> bool
    ensures { result ≡ tokens.is_two_byte_sign b c }
{
    matches!(b, b'=' | b'!' | b'<' | b'>') && c == b'='
}
