//! The text of a script, read from left to right up to its first fault.
//!
//! The reader knows the grammar and its limits alone. Each statement is compared with the book as
//! soon as it is whole, and where one disagrees, the text is read on: a fault of the text comes first.
ghost use Rattle.std.specs.Prelude.{◌≡◌, ◌∷◌, ℕ, [], length, map, OnOk, IfOk, IfErr, IfSome};
ghost use Rattle.gm_model.specs.Rules.{rule_of};
ghost use Rattle.gm_model.specs.Tokens.{EndAt};
ghost use Rattle.gm_text.specs.inner.Lexing.{rest_of};
ghost use Rattle.gm_script.specs.ScriptText.{ScriptText};
ghost use Rattle.gm_script.specs.inner.Faults.{IsFaultOf};
ghost use Rattle.gm_script.specs.inner.FirstRules.{first_rules};
ghost use Rattle.gm_script.specs.inner.Reading.{nothing, read_from, Fails, ReadsOn, IsInText};
ghost use Rattle.gm_script.specs.inner.SoFar.{BeginsLine, ReadsNext, IsCompared, IsKnown, IsSoFar};

use crate::comparing::Compared;
use crate::fault::ScriptFault;
use crate::near::NameLead;
use crate::reader::{Reader, TextFault};
use crate::rules::RulesByName;
use crate::seen::{Seen, near_apply, next_name, next_seen};
use crate::sight::{Head, Sight};
use crate::spot::Spot;
use gm_model::{Book, Dim, Script};
use gm_text::{Lexer, Token, TokenKind};
use std::alloc::Global;

/// Reads the hooks that stand next, as long as they are small numbers with one blank before them.
/// Where none can stand, nothing is read.
fn read_hooks(lexer: &mut Lexer<'_>, reader: &mut Reader) -> Result<(), TextFault>
    ensures ok { OnOk result (ReadsOn reader.old reader.new lexer.old lexer.new) }
    ensures err { IfErr result (λ fault. (n : ℕ) → Fails fault (read_from n lexer.old.text reader.old (rest_of lexer.old))) }
{
    let Spot::Rule = reader.spot() else {
        return Ok(());
    };
    while let Some(number) = lexer.small_number() {
        let token = Token {
            kind: TokenKind::Number,
            start: number.place,
            end: lexer.place(),
        };
        reader.take_hook(number.value, token)?;
    }
    Ok(())
}

/// Reads an application's name that stands next, if it has one blank before it and is no word that
/// scripts have for something else. Where none is looked for, nothing is read.
fn read_name<'a>(
    bytes: &'a [u8],
    lexer: &mut Lexer<'a>,
    rules: &RulesByName<'_>,
    reader: &mut Reader,
    known: &mut Option<NameLead>,
) -> Result<(), TextFault>
    requires text { lexer.old.text ≡ bytes.now }
    requires known { IfSome known.old (IsKnown (map rule_of rules.now)) }
    ensures known { IfSome known.new (IsKnown (map rule_of rules.now)) }
    ensures ok { OnOk result (ReadsOn reader.old reader.new lexer.old lexer.new) }
    ensures err { IfErr result (λ fault. (n : ℕ) → Fails fault (read_from n lexer.old.text reader.old (rest_of lexer.old))) }
{
    let Spot::Apply = reader.spot() else {
        return Ok(());
    };
    if let Some(token) = next_name(bytes, lexer, rules, known) {
        reader.take_name(token)?;
    }
    Ok(())
}

/// Reads on after a token: a rule's name, where one stands next, and the hooks after it.
// A name or a hook that is read as a token by itself takes some 100 instructions more.
fn read_on<'a>(
    bytes: &'a [u8],
    lexer: &mut Lexer<'a>,
    rules: &RulesByName<'_>,
    reader: &mut Reader,
    known: &mut Option<NameLead>,
) -> Result<(), TextFault>
    requires text { lexer.old.text ≡ bytes.now }
    requires known { IfSome known.old (IsKnown (map rule_of rules.now)) }
    ensures known { IfSome known.new (IsKnown (map rule_of rules.now)) }
    ensures ok { OnOk result (ReadsOn reader.old reader.new lexer.old lexer.new) }
    ensures err { IfErr result (λ fault. (n : ℕ) → Fails fault (read_from n lexer.old.text reader.old (rest_of lexer.old))) }
{
    read_name(bytes, lexer, rules, reader, known)?;
    read_hooks(lexer, reader)
}

/// Reads the word `apply` with which a line begins, where one stands next after a whole statement. That
/// is compared.
// What such a word is and leads to needs no look at the grammar, which takes some 90 instructions less.
fn begin_line<'a>(
    bytes: &'a [u8],
    lexer: &mut Lexer<'a>,
    rules: &RulesByName<'_>,
    reader: &mut Reader,
    compared: &mut Compared,
    known: &Option<NameLead>,
) -> Result<bool, ScriptFault>
    requires text { lexer.old.text ≡ bytes.now }
    requires known { IfSome known.now (IsKnown (map rule_of rules.now)) }
    requires named { IsInText bytes.now reader.old.stat.name }
    ensures { (n : ℕ) → IsSoFar n bytes.now (map rule_of rules.now) reader.old (rest_of lexer.old) compared.old
        → BeginsLine n bytes.now (map rule_of rules.now) lexer.old reader.new lexer.new compared.new result }
{
    if !reader.spot().is_whole() {
        return Ok(false);
    }
    let Some(token) = near_apply(bytes, lexer) else {
        return Ok(false);
    };
    reader.end_stat(bytes, Sight::Begins(Head::Apply), rules, compared, known)?;
    reader.take_apply(token)?;
    Ok(true)
}

/// Reads the token that stands next, whatever it is, and compares the statement that ends before it.
/// `false` comes at the text's end.
fn read_token<'a>(
    bytes: &'a [u8],
    top: u8,
    lexer: &mut Lexer<'a>,
    rules: &RulesByName<'_>,
    reader: &mut Reader,
    compared: &mut Compared,
    known: &Option<NameLead>,
) -> Result<bool, ScriptFault>
    requires text { lexer.old.text ≡ bytes.now }
    requires known { IfSome known.now (IsKnown (map rule_of rules.now)) }
    requires so_far { IsSoFar top bytes.now (map rule_of rules.now) reader.old (rest_of lexer.old) compared.old }
    ensures { ReadsNext top bytes.now (map rule_of rules.now) lexer.old reader.new lexer.new compared.new result }
{
    let Some(seen) = next_seen(bytes, lexer, reader.spot())? else {
        return Ok(false);
    };
    let Seen { sight, token } = seen;
    reader.end_stat(bytes, sight, rules, compared, known)?;
    reader.take(top, sight, token)?;
    Ok(true)
}

/// Reads what stands next: the beginning of a line, or else a token.
fn read_next<'a>(
    bytes: &'a [u8],
    top: u8,
    lexer: &mut Lexer<'a>,
    rules: &RulesByName<'_>,
    reader: &mut Reader,
    compared: &mut Compared,
    known: &Option<NameLead>,
) -> Result<bool, ScriptFault>
    requires text { lexer.old.text ≡ bytes.now }
    requires known { IfSome known.now (IsKnown (map rule_of rules.now)) }
    requires so_far { IsSoFar top bytes.now (map rule_of rules.now) reader.old (rest_of lexer.old) compared.old }
    ensures { ReadsNext top bytes.now (map rule_of rules.now) lexer.old reader.new lexer.new compared.new result }
{
    if begin_line(bytes, lexer, rules, reader, compared, known)? {
        return Ok(true);
    }
    read_token(bytes, top, lexer, rules, reader, compared, known)
}

/// Reads the text to its end, and compares each statement but the last.
// By itself it has more registers than within the command.
#[inline(never)]
fn read_tokens(
    bytes: &[u8],
    dim: Dim,
    rules: &RulesByName<'_>,
    reader: &mut Reader,
    compared: &mut Compared,
) -> Result<(), ScriptFault>
    requires reader { reader.old ≡ nothing }
    requires compared { compared.old ≡ Ok [] }
    ensures so_far { OnOk result (IsSoFar dim bytes.now (map rule_of rules.now) reader.new (EndAt (length bytes.now) ∷ []) compared.new) }
    ensures fault { IfErr result (IsFaultOf bytes.now dim (map rule_of rules.now)) }
{
    let top = dim.top();
    let mut lexer = Lexer::new(bytes);
    let mut known = None;
    while read_next(bytes, top, &mut lexer, rules, reader, compared, &known)? {
        read_on(bytes, &mut lexer, rules, reader, &mut known)?;
    }
    Ok(())
}

/// Reads the text to its end, and compares each statement.
fn compare_stats(
    alloc: Global,
    bytes: &[u8],
    dim: Dim,
    rules: &RulesByName<'_>,
    compared: &mut Compared,
) -> Result<(), ScriptFault>
    requires compared { compared.old ≡ Ok [] }
    ensures all { OnOk result (IsCompared dim bytes.now (map rule_of rules.now) compared.new) }
    ensures fault { IfErr result (IsFaultOf bytes.now dim (map rule_of rules.now)) }
{
    let mut reader = Reader::new(alloc);
    read_tokens(bytes, dim, rules, &mut reader, compared)?;
    reader.end_text(bytes, dim, rules, compared)
}

/// The statements of the script that the text stands for under these rules.
fn read_stats(
    alloc: Global,
    bytes: &[u8],
    dim: Dim,
    rules: &RulesByName<'_>,
) -> Result<Script, ScriptFault>
    ensures script { IfOk result (λ script. ScriptText bytes.now dim (map rule_of rules.now) script.stats) }
    ensures fault { IfErr result (IsFaultOf bytes.now dim (map rule_of rules.now)) }
{
    let mut compared = Compared::new(alloc, bytes.len())?;
    compare_stats(alloc, bytes, dim, rules, &mut compared)?;
    compared.finish()
}

/// The script that the text stands for under the book. A fault of the text, by its grammar and
/// limits, comes before any disagreement of a statement with the book. A book that a text stands for
/// has so few rules that a statement can name each; of more than 65,536, the first 65,536.
pub fn read_script(alloc: Global, bytes: &[u8], book: &Book) -> Result<Script, ScriptFault>
    ensures script { IfOk result (λ script. ScriptText bytes.now book.now.schema.dim (first_rules book.now.rules) script.stats) }
    ensures fault { IfErr result (IsFaultOf bytes.now book.now.schema.dim (first_rules book.now.rules)) }
{
    let rules = RulesByName::new(alloc, book.rules.as_slice())?;
    read_stats(alloc, bytes, book.schema.dim, &rules)
}
