// Answers: every refusal of a call, once. A new one is a line of the enum, a line of `refusal_of` and a line of `number_and_place`.

#![tactic(auto)]

ghost use Rattle.answers.specs.Verdict.{Says};
ghost use Rattle.answers.specs.Answers.{refusal_of, verdict_of};

// How a call refuses: each refusal has its number in document 01 and the values that it gives there.
#[derive(Clone, Copy, Debug, PartialEq, Eq)]
pub enum Refusal {
    // 1: the feed has fewer than 2 words, fewer than 2 + C + L, or not exactly the length that the counts give.
    FeedLength,
    // 2: C, L or a count, the word at this place, is over its ceiling.
    Ceiling(u32),
    // 3: the pair at this place has a value above 65,535, or is not above the one before it in its table.
    Ascent(u32),
    // 4: the class pair at this place has unequal sides.
    Sides(u32),
    // 5: the drawing has fewer than 2 words, too few or too many nodes or edges, or another length than these give.
    DrawingLength,
    // 6: a class, a label or a node that does not exist, or a pick above 1, at this place.
    Missing(u32),
    // 7: no node is picked.
    Unpicked,
    // 8: no instruction, more than 1,024, or a part of one.
    ListLength,
    // 9: the kind at this place of the list is unknown.
    UnknownKind(u32),
    // 10: there is no room for this register.
    Full(u32),
    // 11: this register has more than 65,536 pairs.
    Large(u32),
    // 12: the row slice is too short for the rows, or the page buffer for the pages.
    TooMany,
    // 13: the list is too short for so many instructions.
    Short(u32),
    // 14: the sheet has a breach at this line.
    Breach(u32),
    // 15: more nodes are picked than a page has columns.
    TooWide,
    // 16: the operand at this place of the list is no earlier register, or a class or label that does not exist.
    Operand(u32),
    // 17: the unused word at this place of the list is not 0.
    Unused(u32),
}

impl Refusal {
    // Its number and its place.
    #[tactic(auto, unfolding(crate::specs::Verdict::number, crate::specs::Verdict::location))]
    pub fn number_and_place(self) -> (u32, u32)
        ensures { Says (refusal_of self) result.0 result.1 }
    {
        match self {
            Refusal::FeedLength => (1, 0),
            Refusal::Ceiling(p) => (2, p),
            Refusal::Ascent(p) => (3, p),
            Refusal::Sides(p) => (4, p),
            Refusal::DrawingLength => (5, 0),
            Refusal::Missing(p) => (6, p),
            Refusal::Unpicked => (7, 0),
            Refusal::ListLength => (8, 0),
            Refusal::UnknownKind(p) => (9, p),
            Refusal::Full(i) => (10, i),
            Refusal::Large(i) => (11, i),
            Refusal::TooMany => (12, 0),
            Refusal::Short(n) => (13, n),
            Refusal::Breach(line) => (14, line),
            Refusal::TooWide => (15, 0),
            Refusal::Operand(p) => (16, p),
            Refusal::Unused(p) => (17, p),
        }
    }
}

// Says how a call ended: gives the number, 0 where it was accepted, and its place behind the reference.
#[tactic(auto, unfolding(crate::specs::Verdict::number, crate::specs::Verdict::location, crate::specs::Answers::verdict_of))]
pub fn say<T: Copy>(answer: Result<T, Refusal>, place: &mut u32) -> u32
    ensures { Says (verdict_of answer) result place.new }
{
    let (number, at) = match answer {
        Ok(_) => (0, 0),
        Err(refusal) => refusal.number_and_place(),
    };
    *place = at;
    number
}
