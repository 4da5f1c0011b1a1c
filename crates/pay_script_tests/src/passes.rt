//! Tests of the passes, over lists of what their trees have, in the order of the text: a literal, a variable or `spot` and its place, as in `2@3`,
//! `v0@3`, `spot@3`; an operator, a comparison or a connective and its place, as in `+@0`, before its sides; an `if` with how many steps its branches
//! have and the variables that it changes, before its condition and its branches.

use crate::script::script_of;
use crate::text::{put, put_names};
use pay_fixed::NoMemory;
use pay_passes::{IndexRefusal, Trade, affected, fill_changes, fold_constants, index};
use pay_roll::{What, roll};
use pay_tree::{Binary, Compare, Node, NodeKind, Step, Test, TestKind, Unary};
use pay_visit::{Observer, observe_steps};
use std::alloc::Global;
use std::test::Fail;

// The trade of a script, or why it is none.
fn trade_of(alloc: Global, text: &[u8]) -> Result<Result<Trade, IndexRefusal>, Fail> {
    let script = script_of(alloc, text)??;
    if script.items.len() > 1_000 {
        return Err(Fail::new("many items"));
    }
    let events = roll(alloc, &script)?;
    Ok(index(alloc, &script, events))
}

// What trees have, as a text.
#[derive(Drop)]
struct Listing {
    text: Vec<u8>,
}

fn put_slots(text: &mut Vec<u8>, slots: &[u32]) -> Result<(), NoMemory> {
    for slot in slots {
        put(text, b" ", *slot)?;
    }
    Ok(())
}

fn with_one_side(op: Unary) -> &'static [u8] {
    match op {
        Unary::Neg => b" -",
        Unary::Abs => b" abs",
    }
}

fn with_two_sides(op: Binary) -> &'static [u8] {
    match op {
        Binary::Add => b" +",
        Binary::Sub => b" -",
        Binary::Mul => b" *",
        Binary::Div => b" /",
        Binary::Min => b" min",
        Binary::Max => b" max",
    }
}

fn comparing(op: Compare) -> &'static [u8] {
    match op {
        Compare::Less => b" <",
        Compare::LessEq => b" <=",
        Compare::More => b" >",
        Compare::MoreEq => b" >=",
        Compare::Same => b" =",
        Compare::Differs => b" !=",
    }
}

fn word_of_test(test: &TestKind) -> &'static [u8] {
    match test {
        TestKind::Truth(true) => b" true",
        TestKind::Truth(false) => b" false",
        TestKind::Compare { op, .. } => comparing(*op),
        TestKind::Not(_) => b" not",
        TestKind::And(_, _) => b" and",
        TestKind::Or(_, _) => b" or",
    }
}

fn put_number(text: &mut Vec<u8>, number: &NodeKind) -> Result<(), NoMemory> {
    match number {
        NodeKind::Number(literal) => {
            text.extend_from_slice(b" ")?;
            literal.write_decimal(text)
        }
        NodeKind::Slot(slot) => put(text, b" v", *slot),
        NodeKind::Spot => Ok(text.extend_from_slice(b" spot")?),
        NodeKind::Unary(op, _) => Ok(text.extend_from_slice(with_one_side(*op))?),
        NodeKind::Binary(op, _, _) => Ok(text.extend_from_slice(with_two_sides(*op))?),
    }
}

fn put_if(text: &mut Vec<u8>, yes: &[Step], no: &[Step], changes: &[u32]) -> Result<(), NoMemory> {
    put(text, b" if ", u32::try_from(yes.len()).unwrap_or(u32::MAX))?;
    put(text, b" else ", u32::try_from(no.len()).unwrap_or(u32::MAX))?;
    text.extend_from_slice(b" changes")?;
    put_slots(text, changes)?;
    Ok(text.extend_from_slice(b":")?)
}

impl Observer for Listing {
    ghost use Rattle.std.specs.Prelude.{⊤};

    ghost seen = { λ _ _. ⊤ };

    fn node(&mut self, node: &Node) -> Result<(), NoMemory> {
        put_number(&mut self.text, &node.kind)?;
        put(&mut self.text, b"@", node.id)
    }

    fn test(&mut self, test: &Test) -> Result<(), NoMemory> {
        self.text.extend_from_slice(word_of_test(&test.kind))?;
        put(&mut self.text, b"@", test.id)
    }

    fn step(&mut self, step: &Step) -> Result<(), NoMemory> {
        match step {
            Step::Assign { slot, .. } => {
                put(&mut self.text, b" v", *slot)?;
                Ok(self.text.extend_from_slice(b" =")?)
            }
            Step::Pay { leg, .. } => {
                put(&mut self.text, b" l", *leg)?;
                Ok(self.text.extend_from_slice(b" pays")?)
            }
            Step::If {
                yes,
                no,
                changes,
                ..
            } => put_if(&mut self.text, yes, no, changes),
            Step::Group(_) => Ok(self.text.extend_from_slice(b" group")?),
        }
    }
}

// The names of the variables and the legs of a trade, and what its events have.
fn listed(alloc: Global, trade: &Trade) -> Result<Vec<u8>, NoMemory> {
    let mut listing = Listing {
        text: Vec::new(alloc),
    };
    put_names(&mut listing.text, &trade.names)?;
    listing.text.extend_from_slice(b";")?;
    put_names(&mut listing.text, &trade.legs)?;
    for event in &trade.events {
        listing.text.extend_from_slice(b";")?;
        observe_steps(&mut listing, &event.steps)?;
    }
    Ok(listing.text)
}

// A script of two dates in the other order, and what its trade has: variables and legs by first appearance in the text, `period()` and `days()` as
// numbers.
const TWO_DATES: &[u8] = b"schedule from @2024-06-01 to @2024-06-15 every 2 w do
  if b > 0 and not a != spot() then x pays days() else c = -period() endif
end
@2024-01-10 c = abs(1) y pays min(b, c)";

const NUMBERED: &[u8] = b" b a c; x y; v2 = abs@0 1@1 l1 pays min@2 v0@3 v2@4; \
if 1 else 1 changes: and@0 >@1 v0@2 0@3 not@4 !=@5 v1@6 spot@7 l0 pays 14@8 v2 = -@9 1@10";

#[test]
fn variables_and_legs_have_numbers(rt: HostRuntime) -> Result<(), Fail> {
    let trade = trade_of(rt.alloc(), TWO_DATES)??;
    let found = listed(rt.alloc(), &trade)?;
    assert_eq!(rt; found.as_slice(), NUMBERED);
    Ok(())
}

// Scripts, and what they have after folding.
const FOLDED: &[(&[u8], &[u8])] = &[
    (
        b"@2024-06-28 x = 2 * 3 + 1 / 0",
        b" x;; v0 = +@0 6@1 /@4 1@5 0@6",
    ),
    (b"@2024-06-28 x = 0 * x", b" x;; v0 = *@0 0@1 v0@2"),
    (
        b"@2024-06-28 x = 100000000000000 + 0.0001 y = abs(-(1 - 3))",
        b" x y;; v0 = +@0 100000000000000@1 0.0001@2 v1 = 2@3",
    ),
    (
        b"@2024-06-28 if 1 + 1 < 3 or x = 0 then a pays 2 * spot() else a pays 2 / 3 endif",
        b" x; a; if 1 else 1 changes: or@0 true@1 =@6 v0@7 0@8 l0 pays *@9 2@10 spot@11 l0 pays 0.6667@12",
    ),
    (
        b"@2024-06-28 if not 2 >= 3 then endif",
        b";; if 0 else 0 changes: not@0 false@1",
    ),
];

fn folded(alloc: Global, text: &[u8]) -> Result<Vec<u8>, Fail> {
    let mut trade = trade_of(alloc, text)??;
    for event in &mut trade.events {
        fold_constants(&mut event.steps);
    }
    Ok(listed(alloc, &trade)?)
}

#[test]
fn constants_are_folded_where_they_do_not_fault(rt: HostRuntime) -> Result<(), Fail> {
    for &(script, wanted) in FOLDED {
        let found = folded(rt.alloc(), script)?;
        assert_eq!(rt; found.as_slice(), wanted);
    }
    Ok(())
}

const NESTED: &[u8] =
    b"@2024-06-28 if c = 0 then a = 1 else if a = 0 then b = 1 c = 2 b = 3 endif x pays d endif";

// What it has with the variables that each `if` changes, and those that its steps assign.
const FILLED: &[u8] = b" c a b d; x; if 1 else 2 changes 0 1 2: =@0 v0@1 0@2 v1 = 1@3 \
if 3 else 0 changes 0 2: =@4 v1@5 0@6 v2 = 1@7 v0 = 2@8 v2 = 3@9 l0 pays v3@10; 0 1 2";

// Fills the events of a trade, and appends the variables that the steps of each assign.
fn put_filled(alloc: Global, trade: &mut Trade, text: &mut Vec<u8>) -> Result<(), NoMemory> {
    for event in &mut trade.events {
        fill_changes(alloc, &mut event.steps)?;
        put_slots(text, &affected(alloc, &event.steps)?)?;
    }
    Ok(())
}

// What a trade has once its events are filled, with the variables that their steps assign.
fn filled(alloc: Global, mut trade: Trade) -> Result<Vec<u8>, NoMemory> {
    let mut assigned = Vec::from_slice(alloc, b";")?;
    put_filled(alloc, &mut trade, &mut assigned)?;
    let mut text = listed(alloc, &trade)?;
    text.extend_from_slice(&assigned)?;
    Ok(text)
}

#[test]
fn choices_have_the_variables_that_they_change(rt: HostRuntime) -> Result<(), Fail> {
    let trade = trade_of(rt.alloc(), NESTED)??;
    let found = filled(rt.alloc(), trade)?;
    assert_eq!(rt; found.as_slice(), FILLED);
    Ok(())
}

// A script of so many variables and legs.
fn wide_script(alloc: Global, variables: u32, legs: u32) -> Result<Vec<u8>, NoMemory> {
    let mut text = Vec::from_slice(alloc, b"@2024-06-28")?;
    for variable in 0..variables {
        put(&mut text, b" v", variable)?;
        text.extend_from_slice(b" = 0")?;
    }
    for leg in 0..legs {
        put(&mut text, b" l", leg)?;
        text.extend_from_slice(b" pays 0")?;
    }
    Ok(text)
}

const TOO_MANY_VARIABLES: IndexRefusal = IndexRefusal::TooMany {
    what: What::Variables,
    limit: 1_024,
};

const TOO_MANY_LEGS: IndexRefusal = IndexRefusal::TooMany {
    what: What::Legs,
    limit: 256,
};

// How many variables and legs a script has, and why it is no trade.
const COUNTS: &[(u32, u32, Option<IndexRefusal>)] = &[
    (1_024, 256, None),
    (1_024, 257, Some(TOO_MANY_LEGS)),
    (1_025, 257, Some(TOO_MANY_VARIABLES)),
];

#[test]
fn too_many_variables_are_asked_before_legs(rt: HostRuntime) -> Result<(), Fail> {
    let alloc = rt.alloc();
    for &(variables, legs, refusal) in COUNTS {
        let text = wide_script(alloc, variables, legs)?;
        assert_eq!(rt; trade_of(alloc, &text)?.err(), refusal);
    }
    Ok(())
}
