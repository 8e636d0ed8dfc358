//! Where in an expression reading is, and how it goes on.
ghost use Rattle.std.specs.Prelude.{◌≡◌, ◌↔◌, ◌+◌, ◌<◌, ◌≤◌, length, false, IsTrue, OnSome};
ghost use Rattle.gm_parse.specs.inner.Reading.{start, opened, behind_field, behind_move, behind_name_move, behind_node, close_move, comma_move, else_move, if_move, is_whole, move_by, move_to, not_place, operand_move, operand_place, operator_move, term_place, then_move};
ghost use Rattle.gm_parse.specs.inner.Taking.{Becomes, with_bracket};

use crate::brackets::Brackets;
use crate::key::Key;
use crate::place::{Bracket, Ending, Need, Place};
use gm_model::BinOp;
use std::marker::Model;

/// The brackets that are open, and what can stand next. Whether a comparison was read since the
/// last bracket, `and` or `or` is known too, since no further one can follow it.
#[derive(Drop)]
pub struct State {
    open_brackets: Brackets,
    compared: bool,
    place: Place,
}

impl Model for State {
    ghost use Rattle.std.specs.Prelude.{Bool};
    ghost use Rattle.gm_parse.specs.inner.Reading.{State as Where, state_at};

    ghost Value = { Where };

    ghost view = { λ state. state_at state.open_brackets state.compared state.place };
}

impl State {
    /// Where an expression begins.
    pub fn new() -> State
        ensures { result ≡ start }
    {
        State {
            open_brackets: Brackets::new(),
            compared: false,
            place: Place::Operand(Need::Any),
        }
    }

    pub(crate) fn place(&self) -> Place
        ensures { result ≡ self.now.place }
    {
        self.place
    }

    /// Whether an expression can end here.
    pub(crate) fn is_whole(&self) -> bool
        ensures { result ≡ is_whole self.now }
    {
        self.open_brackets.is_empty() && matches!(self.place, Place::Behind | Place::BehindName)
    }

    /// Goes on with what is next, and answers whether it can. Where it can't it stays.
    pub(crate) fn go_on(&mut self, key: Key) -> bool
        requires { length self.old.open_brackets < 257 }
        ensures { Becomes (move_by self.old self.old.place key) self.old result self.new }
    {
        match self.place {
            Place::Operand(need) => self.begin(need, key),
            Place::Behind => self.go_behind(key),
            Place::BehindName => self.go_behind_name(key),
            place => self.go_to(go_in_term(place, key)),
        }
    }

    fn go_to(&mut self, to: Option<Place>) -> bool
        ensures { Becomes (move_to self.old to) self.old result self.new }
    {
        match to {
            Some(place) => {
                self.place = place;
                true
            }
            None => false,
        }
    }

    /// A whole expression begins in a further bracket.
    fn open(&mut self, bracket: Bracket)
        requires { length self.old.open_brackets < 257 }
        ensures { self.new ≡ opened self.old bracket }
    {
        self.open_brackets.put(bracket);
        self.compared = false;
        self.place = Place::Operand(Need::Any);
    }

    fn begin(&mut self, need: Need, key: Key) -> bool
        requires { length self.old.open_brackets < 257 }
        ensures { Becomes (operand_move self.old need key) self.old result self.new }
    {
        match (key, need) {
            (Key::Open, _) => {
                let compared = self.compared;
                self.open(Bracket::Group(compared));
                true
            }
            (Key::If, Need::Any) => {
                self.open(Bracket::If);
                true
            }
            _ => self.go_to(begin_operand(need, key)),
        }
    }

    fn operate(&mut self, op: BinOp) -> bool
        ensures { Becomes (operator_move self.old op) self.old result self.new }
    {
        match op {
            BinOp::Or | BinOp::And => {
                self.compared = false;
                self.place = Place::Operand(Need::NoIf);
            }
            BinOp::Add | BinOp::Sub | BinOp::Mul | BinOp::Div | BinOp::Rem => {
                self.place = Place::Operand(Need::Tight);
            }
            _ if self.compared => return false,
            _ => {
                self.compared = true;
                self.place = Place::Operand(Need::Tight);
            }
        }
        true
    }

    /// Where there is a bracket, it is open again, and nothing has changed.
    fn put_back(&mut self, taken: Option<Bracket>) -> bool
        requires { OnSome taken (length self.old.open_brackets < 257) }
        ensures back { self.new ≡ with_bracket self.old taken }
        ensures answer { result ≡ false }
    {
        if let Some(bracket) = taken {
            self.open_brackets.put(bracket);
        }
        false
    }

    fn close(&mut self) -> bool
        ensures { Becomes (close_move self.old.open_brackets) self.old result self.new }
    {
        match self.open_brackets.take() {
            Some(Bracket::Group(compared) | Bracket::Call(compared)) => {
                self.compared = compared;
                self.place = Place::Behind;
                true
            }
            other => self.put_back(other),
        }
    }

    fn part(&mut self) -> bool
        ensures { Becomes (comma_move self.old.open_brackets) self.old result self.new }
    {
        match self.open_brackets.take() {
            Some(Bracket::Call(compared)) => {
                self.open(Bracket::Call(compared));
                true
            }
            other => self.put_back(other),
        }
    }

    fn choose(&mut self) -> bool
        ensures { Becomes (then_move self.old.open_brackets) self.old result self.new }
    {
        match self.open_brackets.take() {
            Some(Bracket::If) => {
                self.open(Bracket::Then);
                true
            }
            other => self.put_back(other),
        }
    }

    /// The last part of a choice begins, which ends where the choice does.
    fn choose_last(&mut self) -> bool
        ensures { Becomes (else_move self.old.open_brackets) self.old result self.new }
    {
        match self.open_brackets.take() {
            Some(Bracket::Then) => {
                self.compared = false;
                self.place = Place::Operand(Need::Any);
                true
            }
            other => self.put_back(other),
        }
    }

    fn go_behind(&mut self, key: Key) -> bool
        ensures { Becomes (behind_move self.old key) self.old result self.new }
    {
        match key {
            Key::Operator(op) => self.operate(op),
            Key::Close => self.close(),
            Key::Comma => self.part(),
            Key::Then => self.choose(),
            Key::Else => self.choose_last(),
            _ => false,
        }
    }

    /// A name can be a function, a node or a parameter.
    fn go_behind_name(&mut self, key: Key) -> bool
        requires { length self.old.open_brackets < 257 }
        ensures { Becomes (behind_name_move self.old key) self.old result self.new }
    {
        match key {
            Key::Open => {
                let compared = self.compared;
                self.open(Bracket::Call(compared));
                true
            }
            Key::At => self.go_to(Some(Place::Step(Ending::Field))),
            Key::Dot => self.go_to(Some(Place::Field(Ending::Field))),
            _ => self.go_behind(key),
        }
    }
}

/// Where reading goes on after `not`.
fn begin_negation(need: Need) -> Option<Place>
    ensures { result ≡ not_place need }
{
    match need {
        Need::Tight => None,
        _ => Some(Place::Operand(Need::NoIf)),
    }
}

/// Where reading goes on after the beginning of an operand, but for brackets.
fn begin_operand(need: Need, key: Key) -> Option<Place>
    ensures { result ≡ operand_place need key }
{
    match key {
        Key::Number | Key::Truth(_) => Some(Place::Behind),
        Key::Name => Some(Place::BehindName),
        Key::Operator(BinOp::Sub) => Some(Place::Operand(Need::Tight)),
        Key::Not => begin_negation(need),
        Key::Same => Some(Place::Same),
        Key::Count => Some(Place::Orbit(Ending::Close)),
        Key::Collect(_) => Some(Place::Orbit(Ending::FieldClose)),
        _ => None,
    }
}

/// Where reading goes on after a node or a label of its path.
fn go_behind_node(ending: Ending, key: Key) -> Option<Place>
    ensures { result ≡ behind_node ending key }
{
    match (ending, key) {
        (_, Key::At) => Some(Place::Step(ending)),
        (Ending::Comma, Key::Comma) => Some(Place::Node(Ending::Close)),
        (Ending::Close, Key::Close) => Some(Place::Behind),
        (Ending::Field | Ending::FieldClose, Key::Dot) => Some(Place::Field(ending)),
        _ => None,
    }
}

/// Where reading goes on in a dart term, or in what is read at it.
fn go_in_term(place: Place, key: Key) -> Option<Place>
    ensures { result ≡ term_place place key }
{
    match (place, key) {
        (Place::Same, Key::Open) => Some(Place::Node(Ending::Comma)),
        (Place::Orbit(ending), Key::Operator(BinOp::Lt)) => Some(Place::Label(ending)),
        (Place::Label(ending), Key::Number) => Some(Place::Label(ending)),
        (Place::Label(ending), Key::Operator(BinOp::Gt)) => Some(Place::Open(ending)),
        (Place::Open(ending), Key::Open) => Some(Place::Node(ending)),
        (Place::Node(ending), Key::Name) => Some(Place::BehindNode(ending)),
        (Place::BehindNode(ending), _) => go_behind_node(ending, key),
        (Place::Step(ending), Key::Number) => Some(Place::BehindNode(ending)),
        (Place::Field(Ending::FieldClose), Key::Name) => Some(Place::Close),
        (Place::Field(_), Key::Name) => Some(Place::Behind),
        (Place::Close, Key::Close) => Some(Place::Behind),
        _ => None,
    }
}
