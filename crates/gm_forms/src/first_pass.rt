//! A book's rules read from left to right up to the first fault of their grammar and limits.
ghost use Rattle.std.specs.Prelude.{◌≡◌, [], None, length, IfOk, IfErr};
ghost use Rattle.gm_forms.specs.inner.Forms.{forms_of, AreRulesIn};
ghost use Rattle.gm_text.specs.inner.SchemaAnswers.{marks_left};
ghost use Rattle.gm_forms.specs.inner.Standing.{Gives, rules_stand, end_stand, read_on, AreRulesRead, IsRulesFault};

use crate::form::RuleForm;
use crate::form_fault::FormFault;
use crate::headers::next_token;
use crate::reader::Reader;
use crate::state::{Heading, State};
use gm_text::Lexer;
use std::alloc::Global;
use std::mem;

fn read_rules<'a>(
    alloc: Global,
    lexer: &mut Lexer<'a>,
    reader: &mut Reader<'a>,
    heading: Heading,
) -> Result<(), FormFault>
    requires rules { reader.old.draft.rules.items ≡ [] }
    requires current { reader.old.draft.current ≡ None }
    ensures read { let text = lexer.old.text in
        Gives (λ _. end_stand text reader.new.draft (length text)) result (read_on (rules_stand heading) (marks_left lexer.old)) }
    ensures within { IfOk result (λ _. AreRulesIn lexer.old.text reader.new.draft.rules.items) }
{
    let mut state = State::Rules(heading);
    let mut last = 0;
    while let Some(token) = next_token(lexer)? {
        let next = reader.step(alloc, lexer, token, state, last)?;
        state = reader.past_value(lexer, next)?;
        last = token.start;
    }
    reader.end(alloc, state, lexer.place())
}

/// The rules after the header, by a reader that holds nothing yet.
fn read_forms_by<'a>(
    alloc: Global,
    lexer: &mut Lexer<'a>,
    reader: &mut Reader<'a>,
    heading: Heading,
) -> Result<Vec<RuleForm>, FormFault>
    requires rules { reader.old.draft.rules.items ≡ [] }
    requires current { reader.old.draft.current ≡ None }
    ensures forms { IfOk result (λ forms. AreRulesRead heading (marks_left lexer.old) (forms_of lexer.old.text forms.items)) }
    ensures within { IfOk result (λ forms. AreRulesIn lexer.old.text forms.items) }
    ensures fault { IfErr result (IsRulesFault heading (marks_left lexer.old)) }
{
    read_rules(alloc, lexer, reader, heading)?;
    Ok(mem::replace(&mut reader.draft.rules, Vec::new(alloc)))
}

/// The rules after the header as they are written, or the first fault from left to right.
pub fn read_forms(
    alloc: Global,
    lexer: &mut Lexer<'_>,
    heading: Heading,
) -> Result<Vec<RuleForm>, FormFault>
    ensures forms { IfOk result (λ forms. AreRulesRead heading (marks_left lexer.old) (forms_of lexer.old.text forms.items)) }
    ensures within { IfOk result (λ forms. AreRulesIn lexer.old.text forms.items) }
    ensures fault { IfErr result (IsRulesFault heading (marks_left lexer.old)) }
{
    let mut reader = Reader::new(alloc);
    read_forms_by(alloc, lexer, &mut reader, heading)
}
