//! Looks for the first place of a grammar file's tree that breaks a code.

use crate::error::GrammarError;
use crate::numbers::Numbers;
use crate::read::{bit_value, category, items, quantifier, text};
use crate::rules::{is_result, names_part};
use crate::steps::Steps;
use json_tree::{Items, Node};
use spv_table::Category;

const A_TEXT: &str = "a text";

const A_NUMBER: &str = "a number";

const AN_OPCODE: &str = "a whole number from 0 to 65535";

const A_VALUE: &str = "a whole number from 0 to 4294967295";

const AN_ARRAY: &str = "an array";

const A_LIST_OR_NOTHING: &str = "an array, or no such key";

const A_TEXT_OR_NOTHING: &str = "a text, or no such key";

/// A place where a code is broken, and what is wanted there.
#[derive(Clone, Copy)]
pub(crate) struct Wrong {
    pub steps: Steps,
    pub wanted: &'static str,
}

/// What is looked for: a place that breaks a code.
#[derive(Clone, Copy)]
pub(crate) struct Search<'n, 'a> {
    /// The kinds of the file; where the code is J2 there are none.
    pub numbers: &'n Numbers<'a>,
    pub code: GrammarError,
}

/// What the operands of an instruction have had of the result kinds.
#[derive(Clone, Copy)]
struct Seen {
    result_type: bool,
    result: bool,
}

impl<'n, 'a> Search<'n, 'a> {
    /// The place, if it is this code that is looked for and it is broken there.
    fn tell(
        &self,
        code: GrammarError,
        is_broken: bool,
        steps: Steps,
        wanted: &'static str,
    ) -> Option<Wrong> {
        if is_broken && self.code == code {
            Some(Wrong { steps, wanted })
        } else {
            None
        }
    }

    /// In a tree.
    pub(crate) fn file(&self, root: &Node<'_, '_>) -> Option<Wrong> {
        let steps = Steps::none();
        match self.instructions(root, steps.key("instructions")) {
            Some(wrong) => Some(wrong),
            None => self.kinds(root, steps.key("operand_kinds")),
        }
    }

    /// In the instructions.
    fn instructions(&self, root: &Node<'_, '_>, steps: Steps) -> Option<Wrong> {
        let Some(elements) = items(root, "instructions") else {
            return self.tell(GrammarError::J2, true, steps, AN_ARRAY);
        };
        let mut place: usize = 0;
        for element in elements {
            if let Some(wrong) = self.instruction(&element, steps.item(place)) {
                return Some(wrong);
            }
            place = place.saturating_add(1);
        }
        None
    }

    /// In the kinds.
    fn kinds(&self, root: &Node<'_, '_>, steps: Steps) -> Option<Wrong> {
        let Some(elements) = items(root, "operand_kinds") else {
            return self.tell(GrammarError::J2, true, steps, AN_ARRAY);
        };
        let mut place: usize = 0;
        for element in elements {
            if let Some(wrong) = self.kind(&element, steps.item(place)) {
                return Some(wrong);
            }
            place = place.saturating_add(1);
        }
        None
    }

    /// In an instruction.
    fn instruction(&self, element: &Node<'_, '_>, steps: Steps) -> Option<Wrong> {
        if let Some(wrong) = self.text_at(element, "opname", steps) {
            return Some(wrong);
        }
        if let Some(wrong) = self.whole(element, "opcode", 65535, AN_OPCODE, steps) {
            return Some(wrong);
        }
        if let Some(wrong) = self.operands(element, "operands", steps, false) {
            return Some(wrong);
        }
        self.capabilities(element, steps.key("capabilities"))
    }

    /// At the key of a text.
    fn text_at(&self, element: &Node<'_, '_>, key: &'static str, steps: Steps) -> Option<Wrong> {
        let is_broken = text(element, key).is_none();
        self.tell(GrammarError::J2, is_broken, steps.key(key), A_TEXT)
    }

    /// At the key of a whole number from 0 to a limit.
    fn whole(
        &self,
        element: &Node<'_, '_>,
        key: &'static str,
        limit: u64,
        wanted: &'static str,
        steps: Steps,
    ) -> Option<Wrong> {
        let steps = steps.key(key);
        let Some(number) = element.get(key).and_then(|found| found.as_number()) else {
            return self.tell(GrammarError::J2, true, steps, A_NUMBER);
        };
        let is_broken = match number.as_u64() {
            Some(whole) => whole > limit,
            None => true,
        };
        self.tell(GrammarError::J3, is_broken, steps, wanted)
    }

    /// In the operands of an instruction, or the parameters of an enumerant.
    fn operands(
        &self,
        element: &Node<'_, '_>,
        key: &'static str,
        steps: Steps,
        are_parameters: bool,
    ) -> Option<Wrong> {
        let list = element.get(key)?;
        let steps = steps.key(key);
        let Some(elements) = list.items() else {
            return self.tell(GrammarError::J2, true, steps, A_LIST_OR_NOTHING);
        };
        self.each_operand(elements, steps, are_parameters)
    }

    /// In each operand of an instruction, or each parameter of an enumerant.
    fn each_operand(
        &self,
        elements: Items<'_, '_>,
        steps: Steps,
        are_parameters: bool,
    ) -> Option<Wrong> {
        let mut seen = Seen {
            result_type: false,
            result: false,
        };
        let mut place: usize = 0;
        for operand in elements {
            let at = steps.item(place);
            if let Some(wrong) = self.operand(&operand, at) {
                return Some(wrong);
            }
            let told = if are_parameters {
                self.parameter(&operand, at)
            } else {
                self.result(&operand, &mut seen, at)
            };
            if let Some(wrong) = told {
                return Some(wrong);
            }
            place = place.saturating_add(1);
        }
        None
    }

    /// In a parameter of an enumerant: it is of no result kind.
    fn parameter(&self, operand: &Node<'_, '_>, steps: Steps) -> Option<Wrong> {
        let name = text(operand, "kind")?;
        self.no_result(name, steps.key("kind"))
    }

    /// In an operand or a parameter.
    fn operand(&self, operand: &Node<'_, '_>, steps: Steps) -> Option<Wrong> {
        if let Some(wrong) = self.text_at(operand, "kind", steps) {
            return Some(wrong);
        }
        if let Some(wrong) = self.quantifier(operand, steps.key("quantifier")) {
            return Some(wrong);
        }
        let name = text(operand, "kind")?;
        self.kind_name(name, steps.key("kind"))
    }

    /// At the quantifier of an operand.
    fn quantifier(&self, operand: &Node<'_, '_>, steps: Steps) -> Option<Wrong> {
        let found = operand.get("quantifier")?;
        let Some(text) = found.as_str() else {
            return self.tell(GrammarError::J2, true, steps, A_TEXT_OR_NOTHING);
        };
        let is_broken = quantifier(text).is_none();
        self.tell(GrammarError::J5, is_broken, steps, "? or *, or no such key")
    }

    /// At the name of a kind.
    fn kind_name(&self, name: &str, steps: Steps) -> Option<Wrong> {
        let is_broken = self.code == GrammarError::J4 && self.numbers.number(name).is_none();
        self.tell(
            GrammarError::J4,
            is_broken,
            steps,
            "the name of a kind of operand_kinds",
        )
    }

    /// At the name of a kind that must be no result kind.
    fn no_result(&self, name: &str, steps: Steps) -> Option<Wrong> {
        let is_broken = is_result(self.numbers, name);
        self.tell(
            GrammarError::J6,
            is_broken,
            steps,
            "a kind that is no result kind",
        )
    }

    /// In an operand of a result kind: it stands once in an instruction, and has no quantifier.
    fn result(&self, operand: &Node<'_, '_>, seen: &mut Seen, steps: Steps) -> Option<Wrong> {
        let name = text(operand, "kind")?;
        if self.code != GrammarError::J6 || !is_result(self.numbers, name) {
            return None;
        }
        if operand.get("quantifier").is_some() {
            let wanted = "no quantifier at a result kind";
            return self.tell(GrammarError::J6, true, steps.key("quantifier"), wanted);
        }
        let comes_again = if name == "IdResult" {
            mark(&mut seen.result)
        } else {
            mark(&mut seen.result_type)
        };
        let wanted = "a result kind once in an instruction";
        self.tell(GrammarError::J6, comes_again, steps.key("kind"), wanted)
    }

    /// In the capabilities of an instruction or an enumerant.
    fn capabilities(&self, element: &Node<'_, '_>, steps: Steps) -> Option<Wrong> {
        let list = element.get("capabilities")?;
        let Some(elements) = list.items() else {
            return self.tell(GrammarError::J2, true, steps, A_LIST_OR_NOTHING);
        };
        let mut place: usize = 0;
        for name in elements {
            if name.as_str().is_none() {
                return self.tell(GrammarError::J2, true, steps.item(place), A_TEXT);
            }
            place = place.saturating_add(1);
        }
        None
    }

    /// In a kind.
    fn kind(&self, element: &Node<'_, '_>, steps: Steps) -> Option<Wrong> {
        if let Some(wrong) = self.text_at(element, "kind", steps) {
            return Some(wrong);
        }
        let Some(text) = text(element, "category") else {
            return self.tell(GrammarError::J2, true, steps.key("category"), A_TEXT);
        };
        match category(text) {
            Some(category @ (Category::BitEnum | Category::ValueEnum)) => {
                self.enumerants(element, category, steps.key("enumerants"))
            }
            Some(Category::Composite) => self.bases(element, steps.key("bases")),
            Some(_) => None,
            None => {
                let wanted = "BitEnum, ValueEnum, Id, Literal or Composite";
                self.tell(GrammarError::J5, true, steps.key("category"), wanted)
            }
        }
    }

    /// In the enumerants of a kind of this category.
    fn enumerants(
        &self,
        element: &Node<'_, '_>,
        category: Category,
        steps: Steps,
    ) -> Option<Wrong> {
        let Some(elements) = items(element, "enumerants") else {
            return self.tell(GrammarError::J2, true, steps, AN_ARRAY);
        };
        let mut place: usize = 0;
        for enumerant in elements {
            if let Some(wrong) = self.enumerant(&enumerant, category, steps.item(place)) {
                return Some(wrong);
            }
            place = place.saturating_add(1);
        }
        None
    }

    /// In an enumerant of a kind of this category.
    fn enumerant(&self, element: &Node<'_, '_>, category: Category, steps: Steps) -> Option<Wrong> {
        if let Some(wrong) = self.text_at(element, "enumerant", steps) {
            return Some(wrong);
        }
        let told = match category {
            Category::BitEnum => self.bits(element, steps.key("value")),
            _ => self.whole(element, "value", 4_294_967_295, A_VALUE, steps),
        };
        if let Some(wrong) = told {
            return Some(wrong);
        }
        if let Some(wrong) = self.operands(element, "parameters", steps, true) {
            return Some(wrong);
        }
        self.capabilities(element, steps.key("capabilities"))
    }

    /// At the value of an enumerant of a BitEnum.
    fn bits(&self, element: &Node<'_, '_>, steps: Steps) -> Option<Wrong> {
        let Some(text) = text(element, "value") else {
            return self.tell(GrammarError::J2, true, steps, A_TEXT);
        };
        let is_broken = bit_value(text).is_none();
        let wanted = "0x and one to eight hexadecimal digits";
        self.tell(GrammarError::J3, is_broken, steps, wanted)
    }

    /// In the bases of a Composite.
    fn bases(&self, element: &Node<'_, '_>, steps: Steps) -> Option<Wrong> {
        let Some(elements) = items(element, "bases") else {
            return self.tell(GrammarError::J2, true, steps, AN_ARRAY);
        };
        let mut is_empty = true;
        let mut place: usize = 0;
        for base in elements {
            is_empty = false;
            if let Some(wrong) = self.base(&base, steps.item(place)) {
                return Some(wrong);
            }
            place = place.saturating_add(1);
        }
        self.tell(GrammarError::J7, is_empty, steps, "a kind at least")
    }

    /// At a base of a Composite.
    fn base(&self, base: &Node<'_, '_>, steps: Steps) -> Option<Wrong> {
        let Some(name) = base.as_str() else {
            return self.tell(GrammarError::J2, true, steps, A_TEXT);
        };
        if let Some(wrong) = self.kind_name(name, steps) {
            return Some(wrong);
        }
        if let Some(wrong) = self.no_result(name, steps) {
            return Some(wrong);
        }
        let is_broken = !names_part(self.numbers, name);
        let wanted = "a kind of category Id or Literal";
        self.tell(GrammarError::J7, is_broken, steps, wanted)
    }
}

/// Marks what was seen, and tells whether it was marked before.
fn mark(seen: &mut bool) -> bool {
    let before = *seen;
    *seen = true;
    before
}
