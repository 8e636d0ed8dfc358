//! The tokens of expressions: what each is, and which limit it passes.
ghost use Rattle.std.specs.Prelude.{◌≡◌, ℕ, ◌^◌, ◌-◌, min};
ghost use Rattle.gm_model.specs.Symbols.{Word, Numeral};
ghost use Rattle.gm_text.specs.inner.SchemaAnswers.{IsToken, symbol_at};
ghost use Rattle.gm_parse.specs.declared.key.Key.TheVariants as keys;
ghost use Rattle.gm_parse.specs.inner.Reading.{key_of, key_role, keyword, number_role, sign_key};
ghost use Rattle.gm_parse.specs.Spelling.{limit_in, limit_of};

use crate::key::{Collector, Key};
use crate::place::Place;
use crate::table::meaning_or;
use gm_model::{BinOp, Dim, LimitKind, MOST_NAME_BYTES, MOST_TOKENS, Token, TokenKind};
use gm_text::{Lexer, is_reserved};

/// What the reserved words of expressions are to them.
static KEYWORDS: [(&[u8], Key); 13] = [
    (b"true", Key::Truth(true)),
    (b"false", Key::Truth(false)),
    (b"if", Key::If),
    (b"then", Key::Then),
    (b"else", Key::Else),
    (b"not", Key::Not),
    (b"and", Key::Operator(BinOp::And)),
    (b"or", Key::Operator(BinOp::Or)),
    (b"same", Key::Same),
    (b"count", Key::Count),
    (b"sum", Key::Collect(Collector::Sum)),
    (b"min", Key::Collect(Collector::Least)),
    (b"max", Key::Collect(Collector::Greatest)),
];

/// What the signs of expressions are to them.
static SIGNS: [(&[u8], Key); 16] = [
    (b"(", Key::Open),
    (b")", Key::Close),
    (b",", Key::Comma),
    (b".", Key::Dot),
    (b"@", Key::At),
    (b"+", Key::Operator(BinOp::Add)),
    (b"-", Key::Operator(BinOp::Sub)),
    (b"*", Key::Operator(BinOp::Mul)),
    (b"/", Key::Operator(BinOp::Div)),
    (b"%", Key::Operator(BinOp::Rem)),
    (b"==", Key::Operator(BinOp::Eq)),
    (b"!=", Key::Operator(BinOp::Ne)),
    (b"<", Key::Operator(BinOp::Lt)),
    (b"<=", Key::Operator(BinOp::Le)),
    (b">", Key::Operator(BinOp::Gt)),
    (b">=", Key::Operator(BinOp::Ge)),
];

const GREATEST: u64 = 9_223_372_036_854_775_807;

fn key_of_reserved(word: &[u8]) -> Key
    ensures { result ≡ keyword word.now }
{
    meaning_or(&KEYWORDS, word, Key::Other)
}

fn key_of_word(word: &[u8]) -> Key
    ensures { result ≡ key_of (Word word.now) }
{
    if is_reserved(word) {
        key_of_reserved(word)
    } else {
        Key::Name
    }
}

fn key_of_sign(sign: &[u8]) -> Key
    ensures { result ≡ sign_key sign.now }
{
    meaning_or(&SIGNS, sign, Key::Other)
}

/// What the token is to expressions.
pub fn key_at(lexer: &Lexer<'_>, token: &Token) -> Key
    requires { IsToken lexer.now.text token.now }
    ensures { result ≡ key_of (symbol_at lexer.now.text token.now) }
{
    match token.kind {
        TokenKind::Name => key_of_word(lexer.text(token)),
        TokenKind::Number => Key::Number,
        TokenKind::Gone => Key::Other,
        TokenKind::Sign => key_of_sign(lexer.text(token)),
    }
}

fn limit_of_number(dim: Dim, place: Place, value: u64) -> Option<LimitKind>
    ensures { (n at : ℕ) → value ≡ min n (2 ^ 64 - 1) → result ≡ limit_of (number_role dim place at) (Numeral n) }
{
    match place {
        Place::Label(_) | Place::Step(_) if value > u64::from(dim.top()) => Some(LimitKind::Label),
        Place::Label(_) | Place::Step(_) => None,
        _ if value > GREATEST => Some(LimitKind::Integer),
        _ => None,
    }
}

/// The limit that the token passes in the role that it has at this place, however many came before.
fn limit_of_key(
    lexer: &Lexer<'_>,
    token: &Token,
    key: Key,
    dim: Dim,
    place: Place,
) -> Option<LimitKind>
    requires token { IsToken lexer.now.text token.now }
    requires key { key ≡ key_of (symbol_at lexer.now.text token.now) }
    ensures { result ≡ limit_of (key_role dim place key token.now.start) (symbol_at lexer.now.text token.now) }
{
    match key {
        Key::Number => limit_of_number(dim, place, lexer.value(token)),
        Key::Name if lexer.text(token).len() > MOST_NAME_BYTES => Some(LimitKind::Name),
        _ => None,
    }
}

/// The limit that the token passes there, as the one with this ordinal of its expression.
pub(crate) fn limit_passed(
    lexer: &Lexer<'_>,
    token: &Token,
    key: Key,
    dim: Dim,
    place: Place,
    ordinal: usize,
) -> Option<LimitKind>
    requires token { IsToken lexer.now.text token.now }
    requires key { key ≡ key_of (symbol_at lexer.now.text token.now) }
    ensures { result ≡ limit_in (record { ordinal = ordinal; role = key_role dim place key token.now.start }) (symbol_at lexer.now.text token.now) }
{
    match limit_of_key(lexer, token, key, dim, place) {
        Some(what) => Some(what),
        None if ordinal > MOST_TOKENS => Some(LimitKind::Expression),
        None => None,
    }
}
