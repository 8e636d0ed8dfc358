//! Words and signs of the formats.
ghost use Rattle.std.specs.Prelude.{◌≡◌, bytes_eq};
ghost use Rattle.gm_model.specs.Tokens.{bytes_of};
ghost use Rattle.gm_text.specs.inner.SchemaAnswers.{IsToken};
ghost use Rattle.gm_forms.specs.inner.Reading.{param_kind};

use gm_model::Kind;
use gm_parse::meaning_or;
use gm_text::{Lexer, Token};

/// The kinds of parameters, by their words.
static KINDS: [(&[u8], Option<Kind>); 5] = [
    (b"bool", Some(Kind::Bool)),
    (b"int", Some(Kind::Int)),
    (b"vec2", Some(Kind::Vec2)),
    (b"vec3", Some(Kind::Vec3)),
    (b"rgb", Some(Kind::Rgb)),
];

/// Whether the token is this word or sign.
pub fn reads(lexer: &Lexer<'_>, token: Token, word: &[u8]) -> bool
    requires { IsToken lexer.now.text token }
    ensures { result ≡ bytes_eq (bytes_of lexer.now.text token) word.now }
{
    lexer.text(&token) == word
}

/// The kind of a parameter with the word.
pub fn kind_named(word: &[u8]) -> Option<Kind>
    ensures { result ≡ param_kind word.now }
{
    meaning_or(&KINDS, word, None)
}
