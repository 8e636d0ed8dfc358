//! A text read from left to right, one token at a time.

ghost use Rattle.std.specs.Prelude.{◌≡◌, ℕ, ◌+◌, ◌<◌, ◌≤◌, ◌-◌, ◌^◌, false, length, min, IsTrue, IfSome, IfNone, IfOk, IfErr, OnErr, MatchOption};
ghost use Rattle.std.specs.List.{list_all};
ghost use Rattle.gm_model.specs.declared.token.TokenKind.TheVariants.{Name, Number};
ghost use Rattle.gm_model.specs.Tokens.{bytes_of, IsLexeme};
ghost use Rattle.gm_model.specs.Tokens as tokens;
ghost use Rattle.gm_model.specs.Symbols.{value_of};
ghost use Rattle.gm_text.specs.inner.Lexing.{rest_of, items_read, after, stand_of, IsInText, IsLongestThere, IsGap, IsNumberRead, IsSignRead};
ghost use Rattle.gm_text.specs.inner.SchemaAnswers.{IsToken, IsNext, IsNoneNext};

use crate::fault::LexFault;
use crate::guess::Guess;
use crate::scan::{
    Small, behind_blank, behind_this, gap_end, name_near, number_near, past_blank, small_at,
    token_at,
};
use gm_model::Token;
use std::marker::Model;

/// A number below 100,000,000, and where it stands.
#[derive(Clone, Copy)]
pub struct SmallNumber {
    pub value: u32,
    pub place: usize,
}

/// Reads a text from left to right, one token at a time. Nothing is copied. Contracts see the
/// text and the place that the lexer has come to.
#[derive(Drop)]
pub struct Lexer<'a> {
    source: &'a [u8],
    at: usize,
    /// How many digits the next small number is guessed to have.
    guess: Guess,
}

impl<'a> Model for Lexer<'a> {
    ghost use Rattle.std.specs.Prelude.{◌≤◌, length};
    ghost use Rattle.gm_text.specs.inner.Cursor.{Cursor};

    ghost Value = { Cursor };

    ghost view = { λ lexer. record { text = lexer.source.now; place = lexer.at } };

    ghost invariant = { λ lexer. lexer.at ≤ length lexer.source.now };
}

impl<'a> Lexer<'a> {
    /// A lexer at the beginning of the text.
    pub fn new(text: &'a [u8]) -> Lexer<'a>
        ensures { result ≡ record { text = text.now; place = 0 } }
    {
        Lexer {
            source: text,
            at: 0,
            guess: Guess::new(),
        }
    }

    /// A lexer of the text at the place.
    pub fn at(text: &'a [u8], place: usize) -> Lexer<'a>
        requires { place ≤ length text.now }
        ensures { result ≡ record { text = text.now; place = place } }
    {
        Lexer {
            source: text,
            at: place,
            guess: Guess::new(),
        }
    }

    /// A further lexer of the text, at the same place.
    pub fn fork(&self) -> Lexer<'a>
        ensures { result ≡ self.now }
    {
        Lexer {
            source: self.source,
            at: self.at,
            guess: self.guess,
        }
    }

    /// The next token, which the lexer goes past, or `None` at the end of the text. `LexFault`
    /// comes where, after blanks and comments, no token stands; the lexer is then as before.
    pub fn next(&mut self) -> Result<Option<Token>, LexFault>
        ensures answer { rest_of self.old ≡ items_read self.old.text result (rest_of self.new) }
        ensures moved { self.new ≡ after result self.old }
        ensures span { IsInText self.old result }
        ensures longest { IsLongestThere self.old.text result }
        ensures gap { IsGap self.old.text self.old.place (stand_of self.old.text result) }
    {
        let found = self.peek()?;
        self.at = match found {
            Some(token) => token.end,
            None => self.source.len(),
        };
        Ok(found)
    }

    /// What `next` would answer.
    pub fn peek(&self) -> Result<Option<Token>, LexFault>
        ensures answer { rest_of self.now ≡ items_read self.now.text result (rest_of (after result self.now)) }
        ensures span { IsInText self.now result }
        ensures longest { IsLongestThere self.now.text result }
        ensures gap { IsGap self.now.text self.now.place (stand_of self.now.text result) }
    {
        if let Some(number) = number_near(self.source, self.at) {
            return Ok(Some(number));
        }
        let start = gap_end(self.source, self.at);
        if start == self.source.len() {
            return Ok(None);
        }
        match token_at(self.source, start) {
            Some(token) => Ok(Some(token)),
            None => Err(LexFault { place: start }),
        }
    }

    /// The next token, which the lexer goes past, or the place where none stands: that of a byte with
    /// which none begins, or the text's length. The lexer is then as before.
    pub fn token(&mut self) -> Result<Token, usize>
        ensures next { IfOk result (λ token. IsNext self.old token self.new) }
        ensures none { IfErr result (IsNoneNext self.old) }
        ensures refused { OnErr result (self.new ≡ self.old) }
    {
        match self.peek() {
            Ok(Some(token)) => {
                self.at = token.end;
                Ok(token)
            }
            Ok(None) => Err(self.source.len()),
            Err(fault) => Err(fault.place),
        }
    }

    /// The number that stands next, which the lexer goes past, where it has eight digits at most,
    /// nothing stands before it but one blank at most, and the text goes on for 17 bytes at least.
    /// `None` says nothing of what stands next, and the lexer is then as before.
    // Inlined, as `small_at` is.
    #[inline(always)]
    pub fn small_number(&mut self) -> Option<SmallNumber>
        ensures number { IfSome result (λ found. IsNumberRead found.value found.place self.old self.new) }
        ensures none { IfNone result (self.new ≡ self.old) }
    {
        // One test of the text's end serves the blank, each digit and what stands after them.
        if self.at + 17 > self.source.len() {
            return None;
        }
        let place = past_blank(self.source, self.at);
        let mut guess = self.guess;
        let found = self.number_from(place, &mut guess)?;
        self.guess = guess;
        Some(found)
    }

    /// The same after this blank, or with nothing before it where none is named, by a guess that
    /// the caller keeps: one for each column of a table, say.
    // Inlined, as `small_at` is.
    #[inline(always)]
    pub fn number_behind(&mut self, blank: Option<u8>, guess: &mut Guess) -> Option<SmallNumber>
        requires blank { IfSome blank (λ b. IsTrue (tokens.is_blank b)) }
        ensures number { IfSome result (λ found. IsNumberRead found.value found.place self.old self.new) }
        ensures none { IfNone result (self.new ≡ self.old) }
    {
        if self.at + 17 > self.source.len() {
            return None;
        }
        let place = behind_this(self.source, self.at, blank)?;
        self.number_from(place, guess)
    }

    /// The number that begins at the place, up to which no token stands.
    // Inlined, as `small_at` is.
    #[inline(always)]
    fn number_from(&mut self, place: usize, guess: &mut Guess) -> Option<SmallNumber>
        requires room { place + 16 ≤ length self.now.text }
        requires same { rest_of self.now ≡ tokens.items_at self.now.text place }
        ensures number { IfSome result (λ found. IsNumberRead found.value found.place self.old self.new) }
        ensures none { IfNone result (self.new ≡ self.old) }
    {
        let Small { value, end } = small_at(self.source, place, guess)?;
        self.at = end;
        Some(SmallNumber { value, place })
    }

    /// The name that stands next, which the lexer goes past, where nothing stands before it but one
    /// blank at most. `None` says nothing of what stands next, and the lexer is then as before.
    // Inlined, as `small_at` is.
    #[inline(always)]
    pub fn small_name(&mut self) -> Option<Token>
        ensures next { IfSome result (λ token. IsNext self.old token self.new) }
        ensures kind { IfSome result (λ token. token.kind ≡ Name) }
        ensures none { IfNone result (self.new ≡ self.old) }
    {
        let token = name_near(self.source, self.at)?;
        self.at = token.end;
        Some(token)
    }

    /// Whether this sign of one byte stands next, and nothing before it but one blank at most. The
    /// lexer then goes past it. `false` says nothing of what stands next, and the lexer is then as
    /// before.
    // Inlined, as `small_at` is.
    #[inline(always)]
    pub fn small_sign(&mut self, sign: u8) -> bool
        requires sign { IsTrue (tokens.is_sign sign) }
        requires alone { (c : ℕ) → tokens.is_two_byte_sign sign c ≡ false }
        ensures read { IsTrue result → IsSignRead sign self.old self.new }
        ensures none { result ≡ false → self.new ≡ self.old }
    {
        let start = behind_blank(self.source, self.at);
        if start < self.source.len() && self.source[start] == sign {
            self.at = start + 1;
            return true;
        }
        false
    }

    /// The same after this blank, or with nothing before it where none is named.
    // Inlined, as `small_at` is.
    #[inline(always)]
    pub fn sign_behind(&mut self, blank: Option<u8>, sign: u8) -> bool
        requires blank { IfSome blank (λ b. IsTrue (tokens.is_blank b)) }
        requires sign { IsTrue (tokens.is_sign sign) }
        requires alone { (c : ℕ) → tokens.is_two_byte_sign sign c ≡ false }
        ensures read { IsTrue result → IsSignRead sign self.old self.new }
        ensures none { result ≡ false → self.new ≡ self.old }
    {
        if self.at + 2 > self.source.len() {
            return false;
        }
        let Some(start) = behind_this(self.source, self.at, blank) else {
            return false;
        };
        if self.source[start] == sign {
            self.at = start + 1;
            return true;
        }
        false
    }

    /// The end of the last token that `next` answered: 0 before the first, and the text's length
    /// once `next` has answered `None`.
    pub fn place(&self) -> usize
        ensures value { result ≡ self.now.place }
        ensures within { result ≤ length self.now.text }
    {
        self.at
    }

    /// The bytes of the source from the token's start to its end.
    pub fn text(&self, token: &Token) -> &'a [u8]
        requires order { token.now.start ≤ token.now.end }
        requires within { token.now.end ≤ length self.now.text }
        ensures { result.now ≡ bytes_of self.now.text token.now }
    {
        &self.source[token.start..token.end]
    }

    /// The value of a number of the source. Leading zeros count for nothing. `None` comes where
    /// the value is above the greatest `u64`.
    pub fn number(&self, token: &Token) -> Option<u64>
        requires order { token.now.start ≤ token.now.end }
        requires within { token.now.end ≤ length self.now.text }
        requires kind { token.now.kind ≡ Number }
        requires lexeme { IsLexeme token.now.kind (bytes_of self.now.text token.now) }
        ensures { let value = value_of (bytes_of self.now.text token.now) in
            MatchOption result (2 ^ 64 ≤ value) (λ n. n ≡ value) }
    {
        value_of_digits(self.text(token))
    }

    /// The value of a number; the greatest `u64` stands for a number that is greater.
    pub fn value(&self, token: &Token) -> u64
        requires token { IsToken self.now.text token.now }
        requires kind { token.now.kind ≡ Number }
        ensures { result ≡ min (value_of (bytes_of self.now.text token.now)) (2 ^ 64 - 1) }
    {
        self.number(token).unwrap_or(u64::MAX)
    }
}

fn value_of_digits(digits: &[u8]) -> Option<u64>
    requires { IsTrue (list_all tokens.is_digit digits.now) }
    ensures { MatchOption result (2 ^ 64 ≤ value_of digits.now) (λ n. n ≡ value_of digits.now) }
{
    if digits.len() <= 8 {
        Some(value_of_few_digits(digits))
    } else {
        value_of_many_digits(digits)
    }
}

/// The value of digits that are too few to pass the greatest `u64`.
fn value_of_few_digits(digits: &[u8]) -> u64
    requires digits { IsTrue (list_all tokens.is_digit digits.now) }
    requires few { length digits.now ≤ 8 }
    ensures { result ≡ value_of digits.now }
{
    let mut value = 0;
    for digit in digits {
        value = value * 10 + u64::from(*digit - b'0');
    }
    value
}

fn value_of_many_digits(digits: &[u8]) -> Option<u64>
    requires { IsTrue (list_all tokens.is_digit digits.now) }
    ensures { MatchOption result (2 ^ 64 ≤ value_of digits.now) (λ n. n ≡ value_of digits.now) }
{
    let mut value: u64 = 0;
    for digit in digits {
        value = value
            .checked_mul(10)?
            .checked_add(u64::from(*digit - b'0'))?;
    }
    Some(value)
}
