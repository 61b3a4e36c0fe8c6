// Cases of the algebra: the belt cases of document 01 that concern it, each of the sixteen kinds, registers that are given up, and refusals. Each prints
// a line: its name, number and place, then the words of the work slice. The lists stand as words, kinds by their numbers, since it is words that the run takes.

#![tactic(auto)]

ghost use Rattle.std.specs.Prelude.{◌+◌, ◌≤◌, length};
ghost use Rattle.limits.specs.Limits.{largest_object};

use limits::PAIRS;
use matcher::matcher_run;
use std::io;

// The words of classes of 256 and 257 objects, then of a register of the largest size.
const CROSSED_WORDS: usize = 2 * (256 + 257 + PAIRS);

// Prints a text, then a number.
fn print(rt: &impl Print, text: &str, n: u32) -> io::Result<()> {
    print!(rt; "{text}{n}")
}

// Prints the words from number `from` on.
fn print_words(rt: &impl Print, words: &[u32], from: usize) -> io::Result<()> {
    for word in words.iter().skip(from) {
        print(rt, " ", *word)?;
    }
    Ok(())
}

// Runs a list over a feed and prints the case's line, with the words from number `from` on.
fn show(
    rt: &impl Print,
    work: &mut [u32],
    name: &str,
    feed: &[u32],
    list: &[u32],
    from: usize,
) -> io::Result<()> {
    let mut place = 0;
    let number = matcher_run(feed, list, work, &mut place);
    print!(rt; "{name}: {number} {place}:")?;
    print_words(rt, work, from)?;
    println!(rt; "")
}

// Register 0 = {(1,2),(1,3)}: left tag, right tag and tau, each as the last register. The last word is past the last pair.
fn tags(rt: &impl Print) -> io::Result<()> {
    let feed = [0u32, 1, 2, 1, 2, 1, 3];
    let mut work = [7u32; 9];
    let left = [1u32, 0, 0, 7, 0, 0];
    show(rt, &mut work, "left tag", &feed, &left, 0)?;
    let right = [1u32, 0, 0, 8, 0, 0];
    show(rt, &mut work, "right tag", &feed, &right, 0)?;
    let tau = [1u32, 0, 0, 9, 0, 0];
    show(rt, &mut work, "tau", &feed, &tau, 0)
}

// {(1,2),(1,3)} composed with {(2,9),(3,9)}: (1,9) once. Ten words suffice.
fn composed(rt: &impl Print) -> io::Result<()> {
    let feed = [0u32, 2, 2, 2, 1, 2, 1, 3, 2, 9, 3, 9];
    let list = [1u32, 0, 0, 1, 1, 0, 3, 0, 1];
    let mut enough = [7u32; 10];
    show(rt, &mut enough, "composed", &feed, &list, 0)?;
    let mut short = [7u32; 9];
    show(rt, &mut short, "composed, a word short", &feed, &list, 0)
}

// Two-way labels, {(3,3),(5,4)} and {(1,2),(2,1)}: each pair in both directions, and once; then their union. Twenty words suffice.
fn two_way(rt: &impl Print) -> io::Result<()> {
    let feed = [0u32, 2, 32770, 32770, 3, 3, 5, 4, 1, 2, 2, 1];
    let list = [1u32, 0, 0, 1, 1, 0, 5, 0, 1];
    let mut enough = [7u32; 20];
    show(rt, &mut enough, "two-way", &feed, &list, 0)?;
    let mut short = [7u32; 19];
    show(rt, &mut short, "two-way, a word short", &feed, &list, 0)
}

// The kinds that work on one table, over the label {(1,2),(2,2),(3,1)}.
fn one_table(rt: &impl Print) -> io::Result<()> {
    let feed = [0u32, 1, 3, 1, 2, 2, 2, 3, 1];
    let mut work = [7u32; 12];
    let inverse = [1u32, 0, 0, 2, 0, 0];
    show(rt, &mut work, "inverse", &feed, &inverse, 0)?;
    let equal = [1u32, 0, 0, 11, 0, 0];
    show(rt, &mut work, "equal sides", &feed, &equal, 0)?;
    let lefts = [1u32, 0, 0, 12, 0, 0];
    show(rt, &mut work, "left values", &feed, &lefts, 0)?;
    let rights = [1u32, 0, 0, 13, 0, 0];
    show(rt, &mut work, "right values", &feed, &rights, 0)?;
    let with_left = [1u32, 0, 0, 14, 0, 3];
    show(rt, &mut work, "with left 3", &feed, &with_left, 0)?;
    let with_right = [1u32, 0, 0, 15, 0, 2];
    show(rt, &mut work, "with right 2", &feed, &with_right, 0)
}

// The kinds that work on two tables, over the class {1,2} and the label {(1,2),(2,2),(3,1)}.
fn two_tables(rt: &impl Print) -> io::Result<()> {
    let feed = [1u32, 1, 2, 3, 1, 1, 2, 2, 1, 2, 2, 2, 3, 1];
    let mut work = [7u32; 22];
    let meet = [0u32, 0, 0, 1, 0, 0, 4, 0, 1];
    show(rt, &mut work, "meet", &feed, &meet, 0)?;
    let union = [0u32, 0, 0, 1, 0, 0, 5, 0, 1];
    show(rt, &mut work, "union", &feed, &union, 0)?;
    let difference = [0u32, 0, 0, 1, 0, 0, 6, 1, 0];
    show(rt, &mut work, "difference", &feed, &difference, 0)?;
    let composition = [0u32, 0, 0, 1, 0, 0, 3, 1, 1];
    show(rt, &mut work, "composition", &feed, &composition, 0)?;
    let cross = [0u32, 0, 0, 1, 0, 0, 10, 1, 0];
    show(rt, &mut work, "cross", &feed, &cross, 0)
}

// The class, the label, and its inverse or the pairs with left 0: the 0 is no use of register 0, which is done with after its making. Twelve words suffice
// for the first, six for the second; with one less the label stands.
fn given_up(rt: &impl Print) -> io::Result<()> {
    let feed = [1u32, 1, 2, 3, 1, 1, 2, 2, 1, 2, 2, 2, 3, 1];
    let unused = [0u32, 0, 0, 1, 0, 0, 2, 1, 0];
    let mut enough = [7u32; 12];
    show(rt, &mut enough, "an unused 0", &feed, &unused, 0)?;
    let mut short = [7u32; 11];
    show(
        rt,
        &mut short,
        "an unused 0, a word short",
        &feed,
        &unused,
        0,
    )?;
    let value = [0u32, 0, 0, 1, 0, 0, 14, 1, 0];
    let mut six = [7u32; 6];
    show(rt, &mut six, "a value of 0", &feed, &value, 0)?;
    let twice = [1u32, 0, 0, 5, 0, 0];
    show(rt, &mut enough, "an operand named twice", &feed, &twice, 0)?;
    show(
        rt,
        &mut short,
        "an operand named twice, a word short",
        &feed,
        &twice,
        0,
    )
}

// Word i of a feed of two classes: the objects from 0 to 255, and so many from 256 on.
fn word(i: usize, second: u32) -> u32
    requires { i ≤ largest_object }
{
    match i {
        0 => 2,
        1 => 0,
        2 => 256,
        3 => second,
        _ => ((i - 4) / 2) as u32,
    }
}

// Writes that feed.
fn fill(feed: &mut [u32], second: u32)
    requires { length feed.old ≤ largest_object }
{
    for (i, w) in feed.iter_mut().enumerate() {
        *w = word(i, second);
    }
}

// Two classes of 256 objects crossed are accepted, 256 with 257 are not. Prints the last words of the slice: the classes are given up, and behind the
// cross are zeros. Where all three are used later, and there is no room for the next cross, all three stand.
fn crossed(rt: &impl Print) -> io::Result<()> {
    let list = [0u32, 0, 0, 0, 1, 0, 10, 0, 1];
    let again = [0u32, 0, 0, 0, 1, 0, 10, 0, 1, 10, 2, 0, 4, 3, 1];
    let mut work = [7u32; CROSSED_WORDS];
    let last = CROSSED_WORDS - 6;
    let mut accepted = [0u32; 1028];
    fill(&mut accepted, 256);
    show(
        rt,
        &mut work,
        "256 crossed with 256",
        &accepted,
        &list,
        last,
    )?;
    show(rt, &mut work, "and once more", &accepted, &again, last)?;
    let mut refused = [0u32; 1030];
    fill(&mut refused, 257);
    show(rt, &mut work, "256 crossed with 257", &refused, &list, last)
}

// The list of document 01's sheet, its loads and the steps C and D: 33 pairs in all, so 66 words suffice; so do 42, and with 41 there is no room at
// instruction 5. Cut behind instruction 6, in 42 words, it leaves that register.
fn sheet(rt: &impl Print) -> io::Result<()> {
    let feed = [1u32, 1, 4, 3, 1, 1, 2, 2, 3, 3, 4, 4, 1, 2, 2, 3, 3, 4];
    let loads = [0u32, 0, 0, 0, 0, 0, 0, 0, 0, 1, 0, 0, 1, 0, 0];
    let chain = [3u32, 3, 1, 3, 5, 4];
    let join = [3u32, 0, 6, 3, 7, 2, 7, 8, 0, 8, 8, 0, 9, 8, 0];
    let mut list = [0u32; 36];
    list[..15].copy_from_slice(&loads);
    list[15..21].copy_from_slice(&chain);
    list[21..].copy_from_slice(&join);
    let mut all = [7u32; 66];
    show(rt, &mut all, "sheet, room for all", &feed, &list, 0)?;
    let mut enough = [7u32; 42];
    show(rt, &mut enough, "sheet", &feed, &list, 0)?;
    let mut short = [7u32; 41];
    show(rt, &mut short, "sheet, a word short", &feed, &list, 0)?;
    let mut cut = [0u32; 21];
    cut[..15].copy_from_slice(&loads);
    cut[15..].copy_from_slice(&chain);
    show(rt, &mut enough, "sheet, cut", &feed, &cut, 0)
}

// Refused before the run: nothing is written.
fn refused(rt: &impl Print) -> io::Result<()> {
    let feed = [1u32, 0, 2, 5, 5, 9, 9];
    let double = [1u32, 0, 2, 5, 5, 5, 5];
    let marked = [1u32, 0, 32769, 5, 5];
    let partial = [0u32, 0, 0, 2, 0];
    let unknown = [0u32, 0, 0, 16, 1, 1];
    let absent = [0u32, 1, 7];
    let later = [0u32, 0, 0, 3, 0, 1];
    let unused = [0u32, 0, 0, 2, 0, 7];
    let mut work = [7u32; 4];
    show(
        rt,
        &mut work,
        "a pair twice in the feed",
        &double,
        &partial,
        0,
    )?;
    show(rt, &mut work, "a mark on a class", &marked, &partial, 0)?;
    show(
        rt,
        &mut work,
        "a part of an instruction",
        &feed,
        &partial,
        0,
    )?;
    show(rt, &mut work, "an unknown kind", &feed, &unknown, 0)?;
    show(rt, &mut work, "an absent class", &feed, &absent, 0)?;
    show(
        rt,
        &mut work,
        "a second operand not earlier",
        &feed,
        &later,
        0,
    )?;
    show(rt, &mut work, "an unused word not 0", &feed, &unused, 0)
}

fn main(rt: HostRuntime) -> io::Result<()> {
    tags(&rt)?;
    composed(&rt)?;
    two_way(&rt)?;
    one_table(&rt)?;
    two_tables(&rt)?;
    given_up(&rt)?;
    crossed(&rt)?;
    sheet(&rt)?;
    refused(&rt)
}
