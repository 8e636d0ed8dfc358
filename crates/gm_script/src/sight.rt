//! What a script sees in a token: a word that begins a statement, a name, a number or a sign.

ghost use Rattle.std.specs.Prelude.{◌≡◌, ◌≤◌, length, false, bytes_eq};
ghost use Rattle.gm_model.specs.Tokens.{bytes_of, IsLexeme};
ghost use Rattle.gm_model.specs.Symbols.{symbol_of_kind};
ghost use Rattle.gm_script.specs.inner.Reading as reading;

use gm_text::{Lexer, Token, TokenKind, is_reserved};

/// The word that a statement begins with.
#[derive(Clone, Copy)]
pub(crate) enum Head {
    Apply,
    Each,
    Undo,
    Redo,
    Group,
    End,
}

/// What a script sees in a token.
#[derive(Clone, Copy)]
pub(crate) enum Sight {
    /// A word that begins statements. Each of them is a name that a rule can have, too.
    Begins(Head),
    With,
    Truth(bool),
    /// Another name that a rule can have.
    Name,
    /// The greatest `u64` stands for a number that is greater.
    Number(u64),
    Minus,
    Open,
    Close,
    Less,
    Greater,
    /// What no script has.
    Other,
}

/// What the script sees in a token of the lexer's text.
pub(crate) fn sight_of(lexer: &Lexer<'_>, token: &Token) -> Sight
    requires order { token.now.start ≤ token.now.end }
    requires within { token.now.end ≤ length lexer.now.text }
    requires lexeme { IsLexeme token.now.kind (bytes_of lexer.now.text token.now) }
    ensures { result ≡ reading.sight_of (symbol_of_kind token.now.kind (bytes_of lexer.now.text token.now)) }
{
    match token.kind {
        TokenKind::Name => sight_of_word(lexer.text(token)),
        TokenKind::Number => Sight::Number(lexer.number(token).unwrap_or(u64::MAX)),
        TokenKind::Gone => Sight::Other,
        TokenKind::Sign => sight_of_sign(lexer.text(token)),
    }
}

/// What is seen in a word.
// Most words are names of rules, and two bytes tell of most names that they are nothing else: that
// takes some 120 instructions less. Inlined, since a call would undo that.
#[inline(always)]
pub(crate) fn sight_of_word(bytes: &[u8]) -> Sight
    ensures { result ≡ reading.sight_of_word bytes.now }
{
    if begins_as_known_word(bytes) {
        sight_of_known_word(bytes)
    } else {
        Sight::Name
    }
}

/// Whether a word in which more is seen than a name begins with the same two bytes.
fn begins_as_known_word(bytes: &[u8]) -> bool
    ensures { result ≡ false → reading.sight_of_word bytes.now ≡ Sight.Name }
{
    bytes.len() >= 2 && is_known_beginning(bytes[0], bytes[1])
}

/// Whether one of these words begins with both bytes.
fn is_known_beginning(first: u8, second: u8) -> bool
    ensures { result ≡ reading.is_known_beginning first second }
{
    match second {
        b'a' => matches!(first, b'e' | b'f' | b'm' | b's'),
        b'e' => matches!(first, b'l' | b'r'),
        b'f' => first == b'i',
        b'h' => first == b't',
        b'i' => matches!(first, b'm' | b'r' | b'w'),
        b'l' => first == b'e',
        b'n' => matches!(first, b'a' | b'e' | b'u'),
        b'o' => matches!(first, b'c' | b'h' | b'n'),
        b'p' => first == b'a',
        b'r' => matches!(first, b'g' | b'o' | b'p' | b't'),
        b'u' => matches!(first, b'r' | b's'),
        _ => false,
    }
}

/// The same, word by word.
// Inlined, it would have `sight_of_word` save what it needs of registers before the two bytes are seen.
#[inline(never)]
fn sight_of_known_word(bytes: &[u8]) -> Sight
    ensures { result ≡ reading.sight_of_word bytes.now }
{
    if is_word(bytes, b"apply") {
        Sight::Begins(Head::Apply)
    } else if is_word(bytes, b"with") {
        Sight::With
    } else {
        sight_of_rarer_word(bytes)
    }
}

#[inline(always)]
fn is_word(bytes: &[u8], word: &[u8]) -> bool
    ensures { result ≡ bytes_eq bytes.now word.now }
{
    bytes == word
}

/// What is seen in a word that is neither `apply` nor `with`.
fn sight_of_rarer_word(bytes: &[u8]) -> Sight
    ensures { result ≡ reading.sight_of_rarer_word bytes.now }
{
    if is_word(bytes, b"each") {
        Sight::Begins(Head::Each)
    } else if is_word(bytes, b"undo") {
        Sight::Begins(Head::Undo)
    } else if is_word(bytes, b"redo") {
        Sight::Begins(Head::Redo)
    } else if is_word(bytes, b"group") {
        Sight::Begins(Head::Group)
    } else if is_word(bytes, b"end") {
        Sight::Begins(Head::End)
    } else if is_word(bytes, b"true") {
        Sight::Truth(true)
    } else if is_word(bytes, b"false") {
        Sight::Truth(false)
    } else if is_reserved(bytes) {
        Sight::Other
    } else {
        Sight::Name
    }
}

fn sight_of_sign(bytes: &[u8]) -> Sight
    ensures { result ≡ reading.sight_of_sign bytes.now }
{
    match bytes {
        b"-" => Sight::Minus,
        b"(" => Sight::Open,
        b")" => Sight::Close,
        b"<" => Sight::Less,
        b">" => Sight::Greater,
        _ => Sight::Other,
    }
}
