// The check of an instruction list (document 01, refusal 8; document 02, E3: 9, 16 and 17).
ghost use Rattle.std.specs.Prelude.{◌≡◌, ◌+◌, ◌*◌, ◌≤◌, length, get_or};
ghost use Rattle.std.proofs.Math.Option.{some};
ghost use Rattle.limits.specs.Limits.{most_instructions};
ghost use Rattle.answers.specs.Verdict.{◌then◌};
ghost use Rattle.answers.specs.Answers.{verdict_of};
ghost use Rattle.algebra.specs.Instructions.{instruction, instructions_of, check_operand, check_unused, check_words, check_instruction, check_each, check_instructions};
ghost use Rattle.algebra.specs.inner.Parts.{check_instruction_list, Fit, Early, instruction_of, operands_of};

use crate::{Kind, Shape, Step};
use answers::Refusal;
use feed::{check_feed, class_count, label_count};
use limits::LIST_WORDS;

// An operand, which must be below this bound: the number of classes, of labels, or of earlier registers.
fn check_operand(bound: u32, place: u32, w: u32) -> Result<(), Refusal>
    ensures { verdict_of result ≡ check_operand bound place w }
{
    if w < bound {
        return Ok(());
    }
    Err(Refusal::Operand(place))
}

// An unused word, which must be 0.
fn check_unused(place: u32, w: u32) -> Result<(), Refusal>
    ensures { verdict_of result ≡ check_unused place w }
{
    if w == 0 {
        return Ok(());
    }
    Err(Refusal::Unused(place))
}

// An operand below this bound, then an unused word, of the instruction at this place.
fn one_operand(bound: u32, at: u32, operand: u32, unused: u32) -> Result<(), Refusal>
    requires { at ≤ 3 * most_instructions }
    ensures { verdict_of result ≡ check_operand bound (at + 1) operand then check_unused (at + 2) unused }
{
    check_operand(bound, at + 1, operand).and(check_unused(at + 2, unused))
}

// Two operands below this bound, of the instruction at this place.
fn two_operands(bound: u32, at: u32, first: u32, second: u32) -> Result<(), Refusal>
    requires { at ≤ 3 * most_instructions }
    ensures { verdict_of result ≡ check_operand bound (at + 1) first then check_operand bound (at + 2) second }
{
    check_operand(bound, at + 1, first).and(check_operand(bound, at + 2, second))
}

// What is bad in instruction i, which has this shape and these operand words.
fn check_words(feed: &[u32], i: u32, shape: Shape, a: u32, b: u32) -> Result<(), Refusal>
    requires { Early feed.now i }
    ensures { verdict_of result ≡ check_words feed.now i (some (operands_of shape)) a b }
{
    let place = 3 * i;
    match shape {
        Shape::Class => one_operand(class_count(feed), place, a, b),
        Shape::Label => one_operand(label_count(feed), place, a, b),
        Shape::One => one_operand(i, place, a, b),
        Shape::Two => two_operands(i, place, a, b),
        Shape::Value => check_operand(i, place + 1, a),
    }
}

// What is bad in instruction i.
fn check_instruction(feed: &[u32], i: u32, ins: Step) -> Result<(), Refusal>
    requires { Early feed.now i }
    ensures { verdict_of result ≡ check_instruction feed.now i (instruction_of ins) }
{
    let Ok(kind) = Kind::try_from(ins.kind) else {
        return Err(Refusal::UnknownKind(3 * i));
    };
    check_words(feed, i, kind.shape(), ins.a, ins.b)
}

// Instruction i of the list.
pub fn instruction_at(list: &[u32], i: usize) -> Step
    requires { 3 * i + 3 ≤ length list.now }
    ensures { instruction_of result ≡ get_or (instructions_of list.now) i (instruction 0 0 0) }
{
    let at = 3 * i;
    Step {
        kind: list[at],
        a: list[at + 1],
        b: list[at + 2],
    }
}

// What is bad in the first instruction that breaks a rule.
fn check_each(feed: &[u32], list: &[u32]) -> Result<(), Refusal>
    requires { Fit feed.now list.now }
    ensures { verdict_of result ≡ check_each feed.now 0 (instructions_of list.now) }
{
    let count = list.len() / 3;
    for i in 0..count {
        check_instruction(feed, i as u32, instruction_at(list, i))?;
    }
    Ok(())
}

// The check of a list for a feed that was accepted.
pub fn check_list(feed: &[u32], list: &[u32]) -> Result<(), Refusal>
    requires { 2 ≤ length feed.now }
    ensures { verdict_of result ≡ check_instruction_list feed.now list.now }
{
    if list.len() < 1 {
        return Err(Refusal::ListLength);
    }
    if LIST_WORDS < list.len() {
        return Err(Refusal::ListLength);
    }
    if list.len() % 3 != 0 {
        return Err(Refusal::ListLength);
    }
    check_each(feed, list)
}

// The check of an instruction list and its feed, which comes first.
pub fn check_instructions(feed: &[u32], list: &[u32]) -> Result<(), Refusal>
    ensures { verdict_of result ≡ check_instructions feed.now list.now }
{
    check_feed(feed)?;
    check_list(feed, list)
}
