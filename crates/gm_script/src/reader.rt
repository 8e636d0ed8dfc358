//! What a script says so far, as its tokens are read one after another.
ghost use Rattle.std.specs.Prelude.{◌≡◌, ◌-◌, ◌<◌, ◌≤◌, ◌∷◌, ℕ, [], Some, None, IsTrue, IsFalse, length, map, OnOk, IfErr, IfSome, if◌then◌else◌};
ghost use Rattle.gm_model.specs.declared.token.Token.{Token};
ghost use Rattle.gm_model.specs.Rules.{rule_of};
ghost use Rattle.gm_model.specs.Statements.{stat_of};
ghost use Rattle.gm_model.specs.Tokens.{EndAt};
ghost use Rattle.gm_text.specs.SchemaText.{LimitOf};
ghost use Rattle.gm_text.specs.ValueText as numbers;
ghost use Rattle.gm_script.specs.inner.Comparing as comparing;
ghost use Rattle.gm_script.specs.inner.Faults.{IsFaultOf};
ghost use Rattle.gm_script.specs.inner.Reading as reading;
ghost use Rattle.gm_script.specs.inner.Reading.{Gives, IsInText, passed_of};
ghost use Rattle.gm_script.specs.inner.SoFar.{Adds, IsCompared, IsKnown, IsSoFar};
ghost use Rattle.gm_model.specs.declared.limit.TheConstants.{MOST_DIMENSION};

use crate::comparing::Compared;
use crate::fault::ScriptFault;
use crate::near::NameLead;
use crate::rules::RulesByName;
use crate::sight::{Head, Sight};
use crate::spot::Spot;
use crate::values::fit;
use gm_model::{
    Dim, LimitKind, LineRef, MOST_LINES, MOST_NAME_BYTES, MOST_NAMES, Mask, Param, StatRef, Token,
    Value,
};
use gm_text::with_label;
use std::alloc::{AllocError, AllocFailed, Global};
use std::marker::Model;

/// Why a text's lines can't be read: its first fault from left to right, or that memory ran out.
#[derive(Drop)]
pub(crate) enum TextFault {
    /// No script goes on with what stands at the place.
    Text { place: usize },
    /// What stands at the place passes a limit.
    Limit { what: LimitKind, place: usize },
    /// The label at the place was mentioned before in its orbit.
    Twice { place: usize },
    OutOfMemory,
}

impl From<AllocError> for TextFault {
    ghost use Rattle.gm_script.specs.declared.reader.TextFault.TheVariants as faults;

    ghost from_gives = { λ _ fault. fault ≡ faults.OutOfMemory };

    fn from(_error: AllocError) -> TextFault {
        TextFault::OutOfMemory
    }
}

impl<T: Drop> From<AllocFailed<T>> for TextFault {
    ghost use Rattle.gm_script.specs.declared.reader.TextFault.TheVariants as faults;

    ghost from_gives = { λ _ fault. fault ≡ faults.OutOfMemory };

    fn from(_error: AllocFailed<T>) -> TextFault {
        TextFault::OutOfMemory
    }
}

/// A statement as it is written, before its rule is looked up. Three numbers are held as a vector.
#[derive(Drop)]
pub(crate) struct Draft {
    /// Where its first word stands.
    pub place: usize,
    pub head: Head,
    pub name: Token,
    pub hooks: Vec<u32>,
    pub labels: Mask,
    pub values: Vec<Value>,
}

impl Model for Draft {
    ghost use Rattle.gm_script.specs.inner.Reading.{HeldStat};

    ghost Value = { HeldStat };

    ghost view = { λ stat. record { place = stat.place; head = stat.head; name = stat.name; hooks = stat.hooks.items; labels = stat.labels; values = stat.values.items } };
}

impl Draft {
    /// No statement that is written.
    fn new(alloc: Global) -> Draft
        ensures { result ≡ reading.new_stat Head.Apply reading.no_token }
    {
        Draft {
            place: 0,
            head: Head::Apply,
            name: NO_TOKEN,
            hooks: Vec::new(alloc),
            labels: Mask { bits: 0 },
            values: Vec::new(alloc),
        }
    }

    /// The statement whose first word is this token, in the place of another.
    fn begin(&mut self, head: Head, token: Token)
        ensures { self.new ≡ reading.new_stat head token }
    {
        self.place = token.start;
        self.head = head;
        self.name = token;
        self.hooks.clear();
        self.labels = Mask { bits: 0 };
        self.values.clear();
    }

    /// Makes its values what the parameters' kinds take, and answers whether they take all of them.
    pub(crate) fn fit(&mut self, params: &[Param]) -> bool
        ensures others { self.new ≡ record self.old { values = self.new.values } }
        ensures fit { IsTrue result → comparing.params_for params.now self.old.values ≡ Some self.new.values }
        ensures unfit { IsFalse result → comparing.params_for params.now self.old.values ≡ None }
    {
        fit(&mut self.values, params)
    }

    /// The statement, where it names the rule with this index, if it names one.
    #[inline(always)]
    pub(crate) fn as_stat(&self, index: u16) -> StatRef<'_>
        ensures { stat_of result ≡ comparing.stat_of self.now.head self.now index self.now.values }
    {
        match self.head {
            Head::Apply => StatRef::Apply(LineRef {
                rule: index,
                hooks: &self.hooks,
                params: &self.values,
            }),
            Head::Each => StatRef::Each {
                mask: self.labels,
                rule: index,
                params: &self.values,
            },
            Head::Undo => StatRef::Undo,
            Head::Redo => StatRef::Redo,
            Head::Group => StatRef::Group,
            Head::End => StatRef::End,
        }
    }

    /// How many hooks it gives at a time.
    pub(crate) fn hook_count(&self) -> usize
        ensures { result ≡ comparing.hooks_in self.now }
    {
        match self.head {
            Head::Each => 1,
            _ => self.hooks.len(),
        }
    }
}

/// The statement of a script that is being read.
#[derive(Drop)]
pub(crate) struct Reader {
    spot: Spot,
    /// How many statements have begun.
    begun: usize,
    /// Whether a group is open.
    within: bool,
    stat: Draft,
    /// The numbers of the vector that is being read.
    x: i64,
    y: i64,
    z: i64,
}

impl Model for Reader {
    ghost use Rattle.gm_script.specs.inner.Reading.{Held};

    ghost Value = { Held };

    ghost view = { λ reader. record { spot = reader.spot; begun = reader.begun; within = reader.within; stat = reader.stat; x = reader.x; y = reader.y; z = reader.z } };
}

impl Reader {
    ghost use Rattle.gm_model.specs.declared.limit.TheConstants.{MOST_DIMENSION};
    /// Nothing is read.
    pub(crate) fn new(alloc: Global) -> Reader
        ensures { result ≡ reading.nothing }
    {
        Reader {
            spot: Spot::Start,
            begun: 0,
            within: false,
            stat: Draft::new(alloc),
            x: 0,
            y: 0,
            z: 0,
        }
    }

    /// What was read last.
    pub(crate) fn spot(&self) -> Spot
        ensures { result ≡ self.now.spot }
    {
        self.spot
    }

    /// Compares the statement that ends where this is seen next, if one does. It is held no longer,
    /// and what is read next is the same.
    // Inlined, as `add` is.
    #[inline(always)]
    pub(crate) fn end_stat(
        &mut self,
        bytes: &[u8],
        sight: Sight,
        rules: &RulesByName<'_>,
        compared: &mut Compared,
        known: &Option<NameLead>,
    ) -> Result<(), ScriptFault>
        requires known { IfSome known.now (IsKnown (map rule_of rules.now)) }
        requires in_text { IsInText bytes.now self.old.stat.name }
        ensures added { OnOk result (Adds bytes.now (map rule_of rules.now) (reading.ended_by self.old.spot sight self.old.stat) compared.old compared.new) }
        ensures spot { self.new.spot ≡ self.old.spot }
        ensures next { (top : ℕ) (token : Token) → reading.taken_at top sight token self.new ≡ reading.taken_at top sight token self.old }
        ensures err { IfErr result (λ fault. fault ≡ ScriptFault.OutOfMemory) }
    {
        if self.spot.ends_stat(sight) {
            return compared.add(bytes, &mut self.stat, rules, known);
        }
        Ok(())
    }

    /// Reads the word `apply`, where the statement before it is whole.
    #[inline(always)]
    pub(crate) fn take_apply(&mut self, token: Token) -> Result<(), TextFault>
        requires spot { IsTrue (reading.is_whole self.old.spot) }
        ensures { (n : ℕ) → Gives (λ _. self.new) result (reading.taken_at n (Sight.Begins Head.Apply) token self.old) }
    {
        if self.begun >= MOST_LINES {
            return Err(TextFault::Limit {
                what: LimitKind::Lines,
                place: token.start,
            });
        }
        self.begin(Head::Apply, token);
        self.spot = Spot::Apply;
        Ok(())
    }

    /// Reads a token, in which this is seen, where labels go up to `top`.
    pub(crate) fn take(&mut self, top: u8, sight: Sight, token: Token) -> Result<(), TextFault>
        requires order { token.start ≤ token.end }
        requires top { top ≤ MOST_DIMENSION }
        ensures { Gives (λ _. self.new) result (reading.taken_at top sight token self.old) }
    {
        let place = token.start;
        let Some(spot) = self.spot.next(self.within, sight) else {
            return Err(TextFault::Text { place });
        };
        if let Some(passed) = self.passed(top, sight, token) {
            return Err(passed.fault_at(place));
        }
        self.hold(top, sight, token)?;
        self.spot = spot;
        Ok(())
    }

    /// Reads a token in which nothing but a name is seen, as the rule's name of an application.
    pub(crate) fn take_name(&mut self, token: Token) -> Result<(), TextFault>
        requires order { token.start ≤ token.end }
        requires spot { self.old.spot ≡ Spot.Apply }
        ensures name { OnOk result (self.new.stat.name ≡ token) }
        ensures taken { (n : ℕ) → Gives (λ _. self.new) result (reading.taken_at n Sight.Name token self.old) }
    {
        if token.end - token.start > MOST_NAME_BYTES {
            return Err(TextFault::Limit {
                what: LimitKind::Name,
                place: token.start,
            });
        }
        self.stat.name = token;
        self.spot = Spot::Rule;
        Ok(())
    }

    /// Reads a token that is a number, where a hook can stand.
    pub(crate) fn take_hook(&mut self, hook: u32, token: Token) -> Result<(), TextFault>
        requires spot { self.old.spot ≡ Spot.Rule }
        ensures ok { OnOk result (self.new ≡ reading.with_hook hook self.old) }
        ensures taken { (n : ℕ) → Gives (λ _. self.new) result (reading.taken_at n (Sight.Number hook) token self.old) }
    {
        if hook >= MOST_NAMES {
            return Err(TextFault::Limit {
                what: LimitKind::DartName,
                place: token.start,
            });
        }
        self.hook(hook)
    }

    /// Compares the last statement, if there is one, where the text ends.
    pub(crate) fn end_text(
        &mut self,
        bytes: &[u8],
        dim: Dim,
        rules: &RulesByName<'_>,
        compared: &mut Compared,
    ) -> Result<(), ScriptFault>
        requires so_far { IsSoFar dim bytes.now (map rule_of rules.now) self.old (EndAt (length bytes.now) ∷ []) compared.old }
        ensures all { OnOk result (IsCompared dim bytes.now (map rule_of rules.now) compared.new) }
        ensures fault { IfErr result (IsFaultOf bytes.now dim (map rule_of rules.now)) }
    {
        if self.has_last(bytes.len())? {
            return compared.add(bytes, &mut self.stat, rules, &None);
        }
        Ok(())
    }

    /// Whether there is a last statement, where the text ends at this place.
    fn has_last(&self, place: usize) -> Result<bool, TextFault>
        ensures { Gives (λ has. if has then Some self.now.stat else None) result (reading.finished place self.now) }
    {
        if self.within || !self.spot.is_whole() {
            return Err(TextFault::Text { place });
        }
        Ok(!matches!(self.spot, Spot::Start))
    }

    /// What the token passes, where it can stand.
    fn passed(&self, top: u8, sight: Sight, token: Token) -> Option<Passing>
        requires order { token.start ≤ token.end }
        requires top { top ≤ MOST_DIMENSION }
        ensures { passed_of result ≡ reading.passed_in top self.now.spot (reading.been_of self.now) sight (token.end - token.start) }
    {
        if let Sight::Number(n) = sight {
            return number_passes(top, self.spot, self.stat.labels, n);
        }
        if self.spot.wants_name() {
            return limit_where(token.end - token.start > MOST_NAME_BYTES, LimitKind::Name);
        }
        match sight {
            Sight::Begins(_) => limit_where(self.begun >= MOST_LINES, LimitKind::Lines),
            _ => None,
        }
    }

    /// Holds what is seen, where it can stand.
    fn hold(&mut self, top: u8, sight: Sight, token: Token) -> Result<(), TextFault>
        requires top { top ≤ MOST_DIMENSION }
        requires good { reading.passed_in top self.old.spot (reading.been_of self.old) sight (token.end - token.start) ≡ None }
        ensures ok { OnOk result (self.new ≡ reading.hold self.old.spot sight token self.old) }
        ensures err { IfErr result (λ fault. fault ≡ TextFault.OutOfMemory) }
    {
        match sight {
            Sight::Name => self.name(token),
            Sight::Begins(head) => self.word(top, head, token),
            Sight::Number(n) => self.number(top, n)?,
            Sight::Truth(b) => self.value(Value::Bool(b))?,
            Sight::Close => self.vector()?,
            _ => {}
        }
        Ok(())
    }

    /// Holds a word that begins statements, which can be a rule's name.
    fn word(&mut self, top: u8, head: Head, token: Token)
        requires { reading.passed_in top self.old.spot (reading.been_of self.old) (Sight.Begins head) (token.end - token.start) ≡ None }
        ensures { self.new ≡ reading.hold_head self.old.spot head token self.old }
    {
        if self.spot.wants_name() {
            self.name(token);
        } else {
            self.begin(head, token);
        }
    }

    fn begin(&mut self, head: Head, token: Token)
        requires { self.old.begun < MOST_LINES }
        ensures { self.new ≡ reading.begun head token self.old }
    {
        self.begun += 1;
        self.within = match head {
            Head::Group => true,
            Head::End => false,
            _ => self.within,
        };
        self.stat.begin(head, token);
    }

    fn name(&mut self, name: Token)
        ensures { self.new ≡ reading.named name self.old }
    {
        self.stat.name = name;
    }

    /// Holds a hook, a label, or a number of a value.
    fn number(&mut self, top: u8, n: u64) -> Result<(), TextFault>
        requires top { top ≤ MOST_DIMENSION }
        requires good { reading.number_passes top self.old.spot self.old.stat.labels n ≡ None }
        ensures ok { OnOk result (self.new ≡ reading.hold_number self.old.spot n self.old) }
        ensures err { IfErr result (λ fault. fault ≡ TextFault.OutOfMemory) }
    {
        let minus = self.spot.is_minus();
        match self.spot {
            Spot::Rule => return self.hook(n as u32),
            Spot::Orbit => self.label(n as u8),
            Spot::Open | Spot::OpenMinus => self.x = signed(minus, n),
            Spot::First | Spot::FirstMinus => self.y = signed(minus, n),
            Spot::Second | Spot::SecondMinus => self.z = signed(minus, n),
            _ => return self.value(Value::Int(signed(minus, n))),
        }
        Ok(())
    }

    /// Holds the vector whose numbers are read.
    fn vector(&mut self) -> Result<(), TextFault>
        ensures ok { OnOk result (self.new ≡ reading.hold_vector self.old.spot self.old) }
        ensures err { IfErr result (λ fault. fault ≡ TextFault.OutOfMemory) }
    {
        let vector = match self.spot {
            Spot::Second => Value::Vec2(self.x, self.y),
            _ => Value::Vec3(self.x, self.y, self.z),
        };
        self.value(vector)
    }

    fn hook(&mut self, hook: u32) -> Result<(), TextFault>
        ensures ok { OnOk result (self.new ≡ reading.with_hook hook self.old) }
        ensures err { IfErr result (λ fault. fault ≡ TextFault.OutOfMemory) }
    {
        self.stat.hooks.push(hook)?;
        Ok(())
    }

    fn label(&mut self, label: u8)
        requires { label ≤ MOST_DIMENSION }
        ensures { self.new ≡ reading.with_orbit label self.old }
    {
        self.stat.labels = with_label(self.stat.labels, label);
    }

    fn value(&mut self, value: Value) -> Result<(), TextFault>
        ensures ok { OnOk result (self.new ≡ reading.with_value value self.old) }
        ensures err { IfErr result (λ fault. fault ≡ TextFault.OutOfMemory) }
    {
        self.stat.values.push(value)?;
        Ok(())
    }
}

/// What a token passes.
#[derive(Clone, Copy)]
enum Passing {
    Limit(LimitKind),
    /// That an orbit mentions a label once.
    Mention,
}

impl Passing {
    /// The fault, where the token stands at this place.
    fn fault_at(self, place: usize) -> TextFault
        ensures { result ≡ reading.fault_of self place }
    {
        match self {
            Passing::Limit(what) => TextFault::Limit { what, place },
            Passing::Mention => TextFault::Twice { place },
        }
    }
}

const NO_TOKEN: Token = Token {
    kind: gm_model::TokenKind::Name,
    start: 0,
    end: 0,
};

fn limit_where(passed: bool, what: LimitKind) -> Option<Passing>
    ensures { passed_of result ≡ (if passed then Some (LimitOf what) else None) }
{
    if passed {
        Some(Passing::Limit(what))
    } else {
        None
    }
}

fn number_passes(top: u8, spot: Spot, labels: Mask, n: u64) -> Option<Passing>
    requires { top ≤ MOST_DIMENSION }
    ensures { passed_of result ≡ reading.number_passes top spot labels n }
{
    match spot {
        Spot::Rule => limit_where(n >= u64::from(MOST_NAMES), LimitKind::DartName),
        Spot::Orbit => label_passes(top, labels, n),
        _ => limit_where(n > greatest(spot.is_minus()), LimitKind::Integer),
    }
}

fn label_passes(top: u8, labels: Mask, label: u64) -> Option<Passing>
    requires { top ≤ MOST_DIMENSION }
    ensures { passed_of result ≡ reading.label_passes top labels label }
{
    if label > u64::from(top) {
        return Some(Passing::Limit(LimitKind::Label));
    }
    if labels.has(label as u8) {
        Some(Passing::Mention)
    } else {
        None
    }
}

/// The greatest number of a value.
fn greatest(minus: bool) -> u64
    ensures { result ≡ numbers.greatest minus }
{
    if minus { 1 << 63 } else { (1 << 63) - 1 }
}

fn signed(minus: bool, size: u64) -> i64
    requires { size ≤ numbers.greatest minus }
    ensures { result ≡ reading.signed minus size }
{
    let wide = size as i128;
    if minus { (-wide) as i64 } else { wide as i64 }
}
