// Text in a byte slice: lines and fields, names and numbers, a number or a dash, names of labels.

#![tactic(auto)]

mod names; // names.rt: names by number

ghost use Rattle.std.specs.Prelude.{◌≡◌, true};
ghost use Rattle.tables.specs.Lists.{all};
ghost use Rattle.sheet_text.specs.Text.{within, is_name, is_number, value_of, is_dash, is_number_or_dash, number_or_any, is_starred, starless, is_label_name, differ_by_star};
ghost use Rattle.sheet_text.specs.inner.Parts.{Cut, Two, Three, Four};

use limits::{ANY_OBJECT, DIGITS, LETTERS};
pub use names::Names;

// ---- lines and fields

// What stands before the first separator, and what stands behind it; None where there is none.
pub fn cut(text: &[u8], separator: u8) -> Option<(&[u8], &[u8])>
    ensures { Cut separator text.now result }
{
    let at = text.iter().position(|b| *b == separator)?;
    Some((&text[..at], &text[at + 1..]))
}

// The fields of a line that has two; None where it has fewer or more.
pub fn two_fields(line: &[u8]) -> Option<(&[u8], &[u8])>
    ensures { Two line.now result }
{
    let (first, second) = cut(line, b' ')?;
    let more = second.contains(&b' ');
    if more {
        return None;
    }
    Some((first, second))
}

// Of one that has three.
pub fn three_fields(line: &[u8]) -> Option<(&[u8], &[u8], &[u8])>
    ensures { Three line.now result }
{
    let (first, rest) = cut(line, b' ')?;
    let (second, third) = two_fields(rest)?;
    Some((first, second, third))
}

// Of one that has four.
pub fn four_fields(line: &[u8]) -> Option<(&[u8], &[u8], &[u8], &[u8])>
    ensures { Four line.now result }
{
    let (first, rest) = cut(line, b' ')?;
    let (second, third, fourth) = three_fields(rest)?;
    Some((first, second, third, fourth))
}

// ---- names and numbers

// Whether every byte of a text is one of these.
fn all_within(text: &[u8], low: u8, high: u8) -> bool
    ensures { result ≡ all (within low high) text.now }
{
    text.iter().all(|b| (low <= *b) & (*b <= high))
}

// Whether a text is a name: 1 to 12 lower-case letters.
#[tactic(auto, unfolding(crate::specs::Text::is_name, crate::specs::Text::within))]
pub fn is_name(text: &[u8]) -> bool
    ensures { result ≡ is_name text.now }
{
    let n = text.len();
    (1 <= n) & (n <= LETTERS) && all_within(text, b'a', b'z')
}

// Whether a text is a number: 1 to 5 digits without a leading zero.
pub fn is_number(text: &[u8]) -> bool
    ensures { result ≡ is_number text.now }
{
    let n = text.len();
    let leading_zero = (n > 1) & text.starts_with(b"0");
    (1 <= n) & (n <= DIGITS) && all_within(text, b'0', b'9') & !leading_zero
}

// The value of a number.
// A loop: the closure of a `fold` would have to be callable at every sum, and a sum fits only as the digits are few.
pub fn value_of(text: &[u8]) -> u32
    requires { is_number text.now ≡ true }
    ensures { result ≡ value_of text.now }
{
    let mut n: u32 = 0;
    for b in text {
        n = 10 * n + (*b - b'0') as u32;
    }
    n
}

// ---- the fixed object of a node, or a dash for any

// Whether a text is a dash.
#[tactic(auto, unfolding(crate::specs::Text::is_dash, crate::specs::Text::bytes), using(crate::proofs::Words::same_is))]
fn is_dash(text: &[u8]) -> bool
    ensures { result ≡ is_dash text.now }
{
    text == b"-".as_slice()
}

// Whether a text is a number or a dash.
#[tactic(auto, unfolding(crate::specs::Text::is_number_or_dash))]
pub fn is_number_or_dash(text: &[u8]) -> bool
    ensures { result ≡ is_number_or_dash text.now }
{
    is_dash(text) | is_number(text)
}

// The value of a number; the word for any object where it is a dash.
#[tactic(auto, unfolding(crate::specs::Text::number_or_any, crate::specs::Text::is_number_or_dash))]
pub fn number_or_any(text: &[u8]) -> u32
    requires { is_number_or_dash text.now ≡ true }
    ensures { result ≡ number_or_any text.now }
{
    if is_dash(text) {
        return ANY_OBJECT;
    }
    value_of(text)
}

// ---- names of labels, with a star or without

// Whether a text ends with a star.
#[tactic(auto, unfolding(crate::specs::Text::is_starred))]
pub fn is_starred(text: &[u8]) -> bool
    ensures { result ≡ is_starred text.now }
{
    text.last().copied() == Some(b'*')
}

// A text without its star.
#[tactic(auto, unfolding(crate::specs::Text::starless))]
fn starless(text: &[u8]) -> &[u8]
    ensures { result.now ≡ starless text.now }
{
    if is_starred(text) {
        return &text[..text.len() - 1];
    }
    text
}

// Whether a text is the name of a label.
#[tactic(auto, unfolding(crate::specs::Text::is_label_name))]
pub fn is_label_name(text: &[u8]) -> bool
    ensures { result ≡ is_label_name text.now }
{
    is_name(starless(text))
}

// Whether two texts are one name in two writings, with its star and without.
#[tactic(auto, unfolding(crate::specs::Text::differ_by_star), using(crate::proofs::Words::same_is))]
fn differ_by_star(a: &[u8], b: &[u8]) -> bool
    ensures { result ≡ differ_by_star a.now b.now }
{
    (starless(a) == starless(b)) & (a != b)
}
