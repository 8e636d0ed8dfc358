//! The grammar of scripts as a table of moves: where a reader stands, and where what comes next
//! leads.

ghost use Rattle.std.specs.Prelude.{◌≡◌, Some, None, if◌then◌else◌};
ghost use Rattle.gm_script.specs.inner.Reading as reading;
ghost use Rattle.gm_script.specs.inner.Reading.{HeldStat};

use crate::sight::{Head, Sight};

/// What a script was read up to.
#[derive(Clone, Copy)]
pub(crate) enum Spot {
    /// Nothing.
    Start,
    /// A statement of one word.
    Bare,
    /// The word `apply`.
    Apply,
    /// After `apply`, a rule's name, or a hook.
    Rule,
    /// The word `each`.
    Each,
    /// The `<` of an orbit, or a label.
    Orbit,
    /// The `>` of an orbit.
    Over,
    /// After an orbit, a rule's name.
    Named,
    /// The word `with`.
    With,
    /// A value.
    Value,
    /// The minus of a number by itself.
    Minus,
    /// The `(` of a vector.
    Open,
    OpenMinus,
    /// The first number of a vector.
    First,
    FirstMinus,
    /// The second.
    Second,
    SecondMinus,
    /// The third.
    Third,
}

impl Spot {
    /// The spot after what is seen, in a group or not, or `None` where no script has it there.
    pub(crate) fn next(self, within: bool, sight: Sight) -> Option<Spot>
        ensures { result ≡ reading.next_spot within self sight }
    {
        match sight {
            Sight::Begins(head) => self.next_word(within, head),
            _ => self.next_part(sight),
        }
    }

    /// The spot after a word that begins statements, or a rule's name where one is looked for.
    fn next_word(self, within: bool, head: Head) -> Option<Spot>
        ensures { result ≡ reading.next_word within self head }
    {
        match self {
            Spot::Start | Spot::Bare | Spot::Rule | Spot::Named | Spot::Value => {
                next_head(within, head)
            }
            Spot::Apply => Some(Spot::Rule),
            Spot::Over => Some(Spot::Named),
            _ => None,
        }
    }

    /// The spot after what is seen, where that begins no statement.
    fn next_part(self, sight: Sight) -> Option<Spot>
        ensures { result ≡ reading.next_part self sight }
    {
        match (self, sight) {
            (Spot::Apply, Sight::Name) => Some(Spot::Rule),
            (Spot::Over, Sight::Name) => Some(Spot::Named),
            (Spot::Rule, Sight::Number(_)) => Some(Spot::Rule),
            (Spot::Each, Sight::Less) => Some(Spot::Orbit),
            (Spot::Orbit, Sight::Number(_)) => Some(Spot::Orbit),
            (Spot::Orbit, Sight::Greater) => Some(Spot::Over),
            (Spot::Rule | Spot::Named, Sight::With) => Some(Spot::With),
            (Spot::With | Spot::Value, Sight::Truth(_) | Sight::Number(_)) => Some(Spot::Value),
            (Spot::With | Spot::Value, Sight::Minus) => Some(Spot::Minus),
            (Spot::With | Spot::Value, Sight::Open) => Some(Spot::Open),
            (Spot::Minus, Sight::Number(_)) => Some(Spot::Value),
            (Spot::Open, Sight::Minus) => Some(Spot::OpenMinus),
            (Spot::Open | Spot::OpenMinus, Sight::Number(_)) => Some(Spot::First),
            (Spot::First, Sight::Minus) => Some(Spot::FirstMinus),
            (Spot::First | Spot::FirstMinus, Sight::Number(_)) => Some(Spot::Second),
            (Spot::Second, Sight::Minus) => Some(Spot::SecondMinus),
            (Spot::Second | Spot::SecondMinus, Sight::Number(_)) => Some(Spot::Third),
            (Spot::Second | Spot::Third, Sight::Close) => Some(Spot::Value),
            _ => None,
        }
    }

    /// Whether a statement can end there, or none has begun.
    pub(crate) fn is_whole(self) -> bool
        ensures { result ≡ reading.is_whole self }
    {
        matches!(
            self,
            Spot::Start | Spot::Bare | Spot::Rule | Spot::Named | Spot::Value
        )
    }

    /// Whether a statement ends there, where this is seen next.
    #[inline(always)]
    pub(crate) fn ends_stat(self, sight: Sight) -> bool
        ensures { (stat : HeldStat) → reading.ended_by self sight stat ≡ (if result then Some stat else None) }
    {
        match sight {
            Sight::Begins(_) => !matches!(self, Spot::Start | Spot::Apply | Spot::Over),
            _ => false,
        }
    }

    /// Whether a rule's name is looked for there.
    pub(crate) fn wants_name(self) -> bool
        ensures { result ≡ reading.wants_name self }
    {
        matches!(self, Spot::Apply | Spot::Over)
    }

    /// Whether a minus stands last.
    pub(crate) fn is_minus(self) -> bool
        ensures { result ≡ reading.is_minus self }
    {
        matches!(
            self,
            Spot::Minus | Spot::OpenMinus | Spot::FirstMinus | Spot::SecondMinus
        )
    }
}

/// The spot after the first word of a statement, in a group or not, or `None` where it can't begin.
fn next_head(within: bool, head: Head) -> Option<Spot>
    ensures { result ≡ reading.next_head within head }
{
    match (within, head) {
        (_, Head::Apply) => Some(Spot::Apply),
        (false, Head::Each) => Some(Spot::Each),
        (false, Head::Undo | Head::Redo | Head::Group) | (true, Head::End) => Some(Spot::Bare),
        _ => None,
    }
}
