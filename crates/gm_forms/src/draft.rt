//! The rules of a book that are read so far.
ghost use Rattle.std.specs.Prelude.{◌≡◌, List, ℕ, [], Some, IfOk, IfErr, OnOk, ◌++◌, None};
ghost use Rattle.std.specs.Option.{option_map};
ghost use Rattle.gm_forms.specs.declared.form_fault.FormFault.TheVariants as faults;
ghost use Rattle.gm_forms.specs.inner.Forms.{mention_of, value_of, set_form_of, item_of, param_form_of, rule_form_of, IsIn, IsSpanIn, IsSetIn, IsItemIn, IsParamIn, IsRuleIn};
ghost use Rattle.gm_forms.specs.inner.Reading.{with_item, with_param, with_set, assign_last, require, listed};
ghost use Rattle.gm_forms.specs.BookText.{NodeItem};
ghost use Rattle.gm_forms.specs.inner.Standing.{rules_of, current_of, IsDraftIn};

use crate::form::{Item, ParamForm, RuleForm, SetForm, Span};
use crate::form_fault::FormFault;
use gm_model::{Side, Word};
use gm_text::Token;
use std::alloc::{AllocFailed, Global};

#[derive(Drop)]
pub struct Draft {
    /// The rules that are read whole.
    pub rules: Vec<RuleForm>,
    /// The rule that is read.
    pub current: Option<RuleForm>,
}

impl Draft {
    pub fn new(alloc: Global) -> Draft
        ensures rules { result.rules.items ≡ [] }
        ensures current { result.current ≡ None }
    {
        Draft {
            rules: Vec::new(alloc),
            current: None,
        }
    }

    /// Begins a rule.
    pub fn open(&mut self, alloc: Global, name: Token)
        ensures rules { self.new.rules ≡ self.old.rules }
        ensures within { (text : List ℕ) → IsIn text name → IsDraftIn text self.old → IsDraftIn text self.new }
        ensures current { (text : List ℕ) → current_of text self.new ≡ Some (record { name = mention_of text name; params = []; left = []; right = []; pre = None }) }
    {
        self.current = Some(RuleForm {
            name,
            params: Vec::new(alloc),
            left: Vec::new(alloc),
            right: Vec::new(alloc),
            pre: None,
        });
    }

    /// Lists a parameter of the rule that is read.
    pub fn declare(&mut self, param: ParamForm) -> Result<(), AllocFailed<ParamForm>>
        ensures rules { OnOk result (self.new.rules ≡ self.old.rules) }
        ensures within { (text : List ℕ) → IsParamIn text param → IsDraftIn text self.old → OnOk result (IsDraftIn text self.new) }
        ensures current { (text : List ℕ) → OnOk result (current_of text self.new ≡ option_map (with_param (param_form_of text param)) (current_of text self.old)) }
    {
        match &mut self.current {
            None => Ok(()),
            Some(rule) => rule.declare(param),
        }
    }

    /// Lists an item on a side of the rule that is read.
    pub fn put(&mut self, side: Side, item: Item) -> Result<(), AllocFailed<Item>>
        ensures rules { OnOk result (self.new.rules ≡ self.old.rules) }
        ensures within { (text : List ℕ) → IsItemIn text item → IsDraftIn text self.old → OnOk result (IsDraftIn text self.new) }
        ensures current { (text : List ℕ) → OnOk result (current_of text self.new ≡ option_map (with_item side (item_of text item)) (current_of text self.old)) }
    {
        match &mut self.current {
            None => Ok(()),
            Some(rule) => rule.put(side, item),
        }
    }

    /// Lists a node without assignments.
    pub fn put_node(
        &mut self,
        alloc: Global,
        side: Side,
        name: Token,
        word: Word,
        hook: bool,
    ) -> Result<(), AllocFailed<Item>>
        ensures rules { OnOk result (self.new.rules ≡ self.old.rules) }
        ensures within { (text : List ℕ) → IsIn text name → IsDraftIn text self.old → OnOk result (IsDraftIn text self.new) }
        ensures current { (text : List ℕ) → OnOk result (current_of text self.new ≡ option_map (with_item side (NodeItem (mention_of text name) word hook [])) (current_of text self.old)) }
    {
        let sets = Vec::new(alloc);
        self.put(
            side,
            Item::Node {
                name,
                word,
                hook,
                sets,
            },
        )
    }

    /// Adds the assignment to the node that was listed last.
    pub fn assign(&mut self, set: SetForm) -> Result<(), FormFault>
        ensures memory { IfErr result (λ fault. fault ≡ faults.OutOfMemory) }
        ensures rules { OnOk result (self.new.rules ≡ self.old.rules) }
        ensures within { (text : List ℕ) → IsSetIn text set → IsDraftIn text self.old → OnOk result (IsDraftIn text self.new) }
        ensures current { (text : List ℕ) → OnOk result (current_of text self.new ≡ option_map (assign_last (set_form_of text set)) (current_of text self.old)) }
    {
        match &mut self.current {
            None => Ok(()),
            Some(rule) => rule.assign(set),
        }
    }

    /// Gives the rule that is read its precondition.
    pub fn require(&mut self, value: Span)
        ensures rules { self.new.rules ≡ self.old.rules }
        ensures within { (text : List ℕ) → IsSpanIn text value → IsDraftIn text self.old → IsDraftIn text self.new }
        ensures current { (text : List ℕ) → current_of text self.new ≡ option_map (require (value_of text value)) (current_of text self.old) }
    {
        if let Some(rule) = &mut self.current {
            rule.pre = Some(value);
        }
    }

    /// Ends the rule that is read.
    pub fn close(&mut self) -> Result<(), AllocFailed<RuleForm>>
        ensures rules { (text : List ℕ) → OnOk result (rules_of text self.new ≡ rules_of text self.old ++ listed (current_of text self.old)) }
        ensures current { OnOk result (self.new.current ≡ None) }
        ensures within { (text : List ℕ) → IsDraftIn text self.old → OnOk result (IsDraftIn text self.new) }
    {
        match self.current.take() {
            None => Ok(()),
            Some(rule) => self.rules.push(rule),
        }
    }
}

impl RuleForm {
    fn declare(&mut self, param: ParamForm) -> Result<(), AllocFailed<ParamForm>>
        ensures within { (text : List ℕ) → IsParamIn text param → IsRuleIn text self.old → OnOk result (IsRuleIn text self.new) }
        ensures listed { (text : List ℕ) → OnOk result (rule_form_of text self.new ≡ with_param (param_form_of text param) (rule_form_of text self.old)) }
    {
        self.params.push(param)
    }

    fn put(&mut self, side: Side, item: Item) -> Result<(), AllocFailed<Item>>
        ensures within { (text : List ℕ) → IsItemIn text item → IsRuleIn text self.old → OnOk result (IsRuleIn text self.new) }
        ensures listed { (text : List ℕ) → OnOk result (rule_form_of text self.new ≡ with_item side (item_of text item) (rule_form_of text self.old)) }
    {
        match side {
            Side::Left => self.left.push(item),
            Side::Right => self.right.push(item),
        }
    }

    fn assign(&mut self, set: SetForm) -> Result<(), FormFault>
        ensures memory { IfErr result (λ fault. fault ≡ faults.OutOfMemory) }
        ensures within { (text : List ℕ) → IsSetIn text set → IsRuleIn text self.old → OnOk result (IsRuleIn text self.new) }
        ensures listed { (text : List ℕ) → OnOk result (rule_form_of text self.new ≡ assign_last (set_form_of text set) (rule_form_of text self.old)) }
    {
        let Some(item) = self.right.pop() else {
            return Ok(());
        };
        let item = item.assign(set)?;
        self.right.push(item)?;
        Ok(())
    }
}

impl Item {
    /// The item with the assignment too, where it is a node.
    fn assign(self, set: SetForm) -> Result<Item, AllocFailed<SetForm>>
        ensures within { (text : List ℕ) → IsSetIn text set → IsItemIn text self → IfOk result (λ item. IsItemIn text item) }
        ensures assigned { (text : List ℕ) → IfOk result (λ item. item_of text item ≡ with_set (set_form_of text set) (item_of text self)) }
    {
        match self {
            Item::Node {
                name,
                word,
                hook,
                mut sets,
            } => {
                sets.push(set)?;
                Ok(Item::Node {
                    name,
                    word,
                    hook,
                    sets,
                })
            }
            Item::Link { from, label, to } => Ok(Item::Link { from, label, to }),
        }
    }
}
