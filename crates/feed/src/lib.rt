// The feed: classes and labelled pairs of regions, as a camera writes them.
#![tactic(auto)]

ghost use Rattle.std.specs.Prelude.{◌≡◌, ◌&&◌, [], ◌+◌, ◌*◌, ◌<◌, ◌≤◌, leb, length, take, drop, get_or};
ghost use Rattle.tables.specs.Lists.{total};
ghost use Rattle.answers.specs.Answers.{verdict_of};
ghost use Rattle.limits.specs.Limits.{largest_object, two_way_mark};
ghost use Rattle.feed.specs.Feed.{class_count, label_count, table_count, count_word, is_marked, size_of, counts, is_two_way, tables, class_table, label_table, pairs_of, above, check_counts, check_pair, check_pairs, check_tables, check_feed};
ghost use Rattle.feed.specs.inner.Parts.{pair_from, before, AllOrdered, AllEven, Passes, PairIn, TableIn, Counted, HasTable, counts_found, Exact, Among, TableOf};

use answers::Refusal;
use limits::{CLASSES, LABELS, OBJECT, TABLE_PAIRS, TWO_WAY};
use tables::{Pair, pack};

// The word at i, as a count.
fn word(feed: &[u32], i: usize) -> usize
    requires { i < length feed.now }
    ensures { result ≡ get_or feed.now i 0 }
{
    feed[i] as usize
}

// How many classes a feed has, and how many labels.
pub fn class_count(feed: &[u32]) -> u32
    requires { 2 ≤ length feed.now }
    ensures { result ≡ class_count feed.now }
{
    feed[0]
}

pub fn label_count(feed: &[u32]) -> u32
    requires { 2 ≤ length feed.now }
    ensures { result ≡ label_count feed.now }
{
    feed[1]
}

// The pair whose left word is at i. It has no number, as `tables::pair_at` would ask: a table may begin at an odd word.
pub fn pair_from(feed: &[u32], i: usize) -> Pair
    requires { i + 1 < length feed.now }
    ensures { result ≡ pair_from feed.now i }
{
    Pair {
        left: feed[i],
        right: feed[i + 1],
    }
}

// Whether p, the pair j of a table that starts at `at`, is above the pair before it.
fn rises(feed: &[u32], at: usize, j: usize, p: Pair) -> bool
    requires { at + 2 * j + 1 < length feed.now }
    ensures { result ≡ above (before feed.now at j) p }
{
    if j == 0 {
        return true;
    }
    pair_from(feed, at + 2 * j - 2) < p
}

// Whether p, the pair j of a table that starts at `at`, has values of at most 65,535 and is above the pair before it.
fn is_ordered(feed: &[u32], at: usize, j: usize, p: Pair) -> bool
    requires { at + 2 * j + 1 < length feed.now }
    ensures { result ≡ (leb p.left largest_object && leb p.right largest_object && above (before feed.now at j) p) }
{
    is_small(p) && rises(feed, at, j, p)
}

// The check of the pair j of a table that starts at `at`.
fn check_pair(feed: &[u32], class: bool, at: usize, j: usize) -> Result<(), Refusal>
    requires { PairIn feed.now (at + 2 * j) }
    ensures { verdict_of result ≡ check_pair class (at + 2 * j) (before feed.now at j) (pair_from feed.now (at + 2 * j)) }
{
    let i = at + 2 * j;
    let p = pair_from(feed, i);
    let ordered = is_ordered(feed, at, j, p);
    let even = !class | (p.left == p.right);
    if ordered & even {
        return Ok(());
    }
    if ordered {
        return Err(Refusal::Sides(i as u32));
    }
    Err(Refusal::Ascent(i as u32))
}

// ---- tables passed at one go

// Whether p has values of at most 65,535.
fn is_small(p: Pair) -> bool
    ensures { result ≡ (leb p.left largest_object && leb p.right largest_object) }
{
    (p.left <= OBJECT) & (p.right <= OBJECT)
}

// Whether each of the first `count` pairs of a table that starts at `at` has values of at most 65,535 and is above the pair before it. No
// pair is a reason to stop: a loop without a second way out is done for several pairs at a time.
fn all_ordered(feed: &[u32], at: usize, count: usize) -> bool
    requires { TableIn feed.now at count }
    ensures { AllOrdered feed.now at count result }
{
    if count == 0 {
        return true;
    }
    let first = pair_from(feed, at);
    let mut good = is_small(first);
    let mut last = pack(first);
    for j in 1..count {
        let p = pair_from(feed, at + 2 * j);
        let number = pack(p);
        good = good & is_small(p) & (last < number);
        last = number;
    }
    good
}

// Whether each of them has equal sides: no pair is a reason to stop, as above.
fn all_even(feed: &[u32], at: usize, count: usize) -> bool
    requires { TableIn feed.now at count }
    ensures { AllEven feed.now at count result }
{
    let mut good = true;
    for j in 0..count {
        let p = pair_from(feed, at + 2 * j);
        good = good & (p.left == p.right);
    }
    good
}

// Whether the check of a table of `count` pairs that starts at `at` finds no fault. It takes the table by its place, as the check does, whose refusals name
// a place of the feed.
fn passes(feed: &[u32], class: bool, at: usize, count: usize) -> bool
    requires { TableIn feed.now at count }
    ensures { Passes feed.now class at count result }
{
    let ordered = all_ordered(feed, at, count);
    if class {
        return ordered & all_even(feed, at, count);
    }
    ordered
}

// ---- tables checked

// The check of a table of `count` pairs that starts at `at`, pair by pair up to the first fault.
fn walk_pairs(feed: &[u32], class: bool, at: usize, count: usize) -> Result<(), Refusal>
    requires { TableIn feed.now at count }
    ensures { verdict_of result ≡ check_pairs class at [] (take count (pairs_of (drop at feed.now))) }
{
    for j in 0..count {
        check_pair(feed, class, at, j)?;
    }
    Ok(())
}

// The check of a table of `count` pairs that starts at `at`.
fn check_pairs(feed: &[u32], class: bool, at: usize, count: usize) -> Result<(), Refusal>
    requires { TableIn feed.now at count }
    ensures { verdict_of result ≡ check_pairs class at [] (take count (pairs_of (drop at feed.now))) }
{
    if passes(feed, class, at, count) {
        return Ok(());
    }
    walk_pairs(feed, class, at, count)
}

// How many tables a feed has, classes and labels.
fn table_count(feed: &[u32]) -> usize
    requires { Counted feed.now }
    ensures { result ≡ table_count feed.now }
{
    word(feed, 0) + word(feed, 1)
}

// ---- count words

// The count word of a table: its size, raised by the mark where it is a two-way label's.
pub fn count_word(size: u32, marked: bool) -> u32
    requires { size < two_way_mark }
    ensures { result ≡ count_word marked size }
{
    if marked {
        return TWO_WAY + size;
    }
    size
}

// Whether a count word has the mark.
fn is_marked(word: u32) -> bool
    ensures { result ≡ is_marked word }
{
    TWO_WAY <= word
}

// A label's count word without its mark.
fn size_of(word: u32) -> u32
    ensures { result ≡ size_of word }
{
    if word < TWO_WAY {
        return word;
    }
    word - TWO_WAY
}

// How many pairs table k has, classes first.
fn size_at(feed: &[u32], k: usize) -> usize
    requires { HasTable feed.now k }
    ensures { result ≡ get_or (counts feed.now) k 0 }
{
    if k < word(feed, 0) {
        return word(feed, 2 + k);
    }
    size_of(feed[2 + k]) as usize
}

// The check of the counts, and their sum.
fn sum_counts(feed: &[u32]) -> Result<usize, Refusal>
    requires { Counted feed.now }
    ensures { result ≡ counts_found (check_counts 2 (counts feed.now)) (total (counts feed.now)) }
{
    let n = table_count(feed);
    let mut sum = 0;
    for k in 0..n {
        let count = size_at(feed, k);
        if TABLE_PAIRS < count {
            return Err(Refusal::Ceiling((2 + k) as u32));
        }
        sum += count;
    }
    Ok(sum)
}

// The check of the tables of a feed whose length is that which its counts give.
fn check_tables(feed: &[u32]) -> Result<(), Refusal>
    requires { Exact feed.now }
    ensures { verdict_of result ≡ check_tables (class_count feed.now) (2 + table_count feed.now) (tables feed.now) }
{
    let classes = word(feed, 0);
    let n = table_count(feed);
    let mut at = 2 + n;
    for k in 0..n {
        let count = size_at(feed, k);
        check_pairs(feed, k < classes, at, count)?;
        at += 2 * count;
    }
    Ok(())
}

// The check of a feed (document 01, refusals 1 to 4).
pub fn check_feed(feed: &[u32]) -> Result<(), Refusal>
    ensures { verdict_of result ≡ check_feed feed.now }
{
    if feed.len() < 2 {
        return Err(Refusal::FeedLength);
    }
    let classes = word(feed, 0);
    if CLASSES < classes {
        return Err(Refusal::Ceiling(0));
    }
    let labels = word(feed, 1);
    if LABELS < labels {
        return Err(Refusal::Ceiling(1));
    }
    let head = 2 + classes + labels;
    if feed.len() < head {
        return Err(Refusal::FeedLength);
    }
    let sum = sum_counts(feed)?;
    if feed.len() != head + 2 * sum {
        return Err(Refusal::FeedLength);
    }
    check_tables(feed)
}

// The words of table k of a feed that was accepted, classes first.
fn table_words(feed: &[u32], k: usize) -> &[u32]
    requires { Among feed.now (table_count feed.now) k }
    ensures { TableOf feed.now (get_or (tables feed.now) k []) result.now }
{
    let mut start = 2 + table_count(feed);
    for j in 0..k {
        start += 2 * size_at(feed, j);
    }
    &feed[start..start + 2 * size_at(feed, k)]
}

// The words of the table of class k of a feed that was accepted.
pub fn class_table(feed: &[u32], k: usize) -> &[u32]
    requires { Among feed.now (class_count feed.now) k }
    ensures { TableOf feed.now (class_table feed.now k) result.now }
{
    table_words(feed, k)
}

// The words of the table of label k of a feed that was accepted.
pub fn label_table(feed: &[u32], k: usize) -> &[u32]
    requires { Among feed.now (label_count feed.now) k }
    ensures { TableOf feed.now (label_table feed.now k) result.now }
{
    table_words(feed, word(feed, 0) + k)
}

// Whether label k of a feed that was accepted is two-way.
pub fn is_two_way(feed: &[u32], k: usize) -> bool
    requires { Among feed.now (label_count feed.now) k }
    ensures { result ≡ is_two_way feed.now k }
{
    is_marked(feed[2 + word(feed, 0) + k])
}
