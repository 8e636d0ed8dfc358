//! Tokens: their kinds and places.
use crate::expect::expect_same;
use gm_model::TokenKind::{Gone, Name, Number, Sign};
use gm_text::{LexFault, Lexer, Token, TokenKind};
use std::process::Abort;

/// The kind and the place of a token.
type Written = (TokenKind, usize, usize);

/// A text, its tokens, and what follows them.
type Entry = (
    &'static [u8],
    &'static [Written],
    Result<Option<Token>, LexFault>,
);

static ENTRIES: [Entry; 19] = [
    (b"", &[], Ok(None)),
    (b"12ab", &[(Number, 0, 2), (Name, 2, 4)], Ok(None)),
    (b"_a", &[(Gone, 0, 1), (Name, 1, 2)], Ok(None)),
    (b"__", &[(Gone, 0, 1), (Gone, 1, 2)], Ok(None)),
    (b"a_1 _", &[(Name, 0, 3), (Gone, 4, 5)], Ok(None)),
    (b"<>", &[(Sign, 0, 1), (Sign, 1, 2)], Ok(None)),
    (b">==", &[(Sign, 0, 2), (Sign, 2, 3)], Ok(None)),
    (
        b"-7!=x",
        &[(Sign, 0, 1), (Number, 1, 2), (Sign, 2, 4), (Name, 4, 5)],
        Ok(None),
    ),
    (b"a !", &[(Name, 0, 1)], Err(LexFault { place: 2 })),
    (
        b"vec3\t<1>\r\n",
        &[(Name, 0, 4), (Sign, 5, 6), (Number, 6, 7), (Sign, 7, 8)],
        Ok(None),
    ),
    (b"a # b\nc", &[(Name, 0, 1), (Name, 6, 7)], Ok(None)),
    (b"9 # no line feed", &[(Number, 0, 1)], Ok(None)),
    (b"# \xff\n  \xff", &[], Err(LexFault { place: 6 })),
    (b" 0 ", &[(Number, 1, 2)], Ok(None)),
    (b" 0012+", &[(Number, 1, 5), (Sign, 5, 6)], Ok(None)),
    (b"#1\n9a", &[(Number, 3, 4), (Name, 4, 5)], Ok(None)),
    (b"18446744073709551615", &[(Number, 0, 20)], Ok(None)),
    (b"18446744073709551616", &[(Number, 0, 20)], Ok(None)),
    (b"name 1", &[(Name, 0, 4), (Number, 5, 6)], Ok(None)),
];

fn expect_token(rt: &impl Abort, lexer: &mut Lexer<'_>, written: &Written) {
    let (kind, start, end) = *written;
    expect_same(rt, &lexer.next(), &Ok(Some(Token { kind, start, end })));
}

fn expect_tokens(rt: &impl Abort, entry: &Entry) {
    let (text, tokens, last) = entry;
    let mut lexer = Lexer::new(*text);
    for written in *tokens {
        expect_token(rt, &mut lexer, written);
    }
    expect_same(rt, &lexer.next(), last);
}

#[test]
fn tokens(rt: HostRuntime) {
    for entry in &ENTRIES {
        expect_tokens(&rt, entry);
    }
}
