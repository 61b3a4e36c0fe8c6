// The reader of a sheet: from bytes to the words of a feed and a drawing, or the line of the first breach.

#![tactic(auto)]

ghost use Rattle.std.specs.Prelude.{◌≡◌, map, ◌≤◌, length};
ghost use Rattle.tables.specs.Slices.{table_words, tables_words};
ghost use Rattle.tables.specs.inner.Words.{Put};
ghost use Rattle.feed.specs.Feed.{label_word, feed_words};
ghost use Rattle.sheet_lines.specs.inner.Lines.{most_lines};
ghost use Rattle.sheet_lines.specs.inner.State.{tables_read, Empty};
ghost use Rattle.sheet_reader.specs.Sheet.{lines_of, tables_of, label_of, labels_of};
ghost use Rattle.sheet_reader.specs.inner.Answers.{feed_room, Scanned, Writable, Feedable, Answers, TableFits};

use answers::Refusal;
use drawing::Drawing;
use feed::count_word;
use limits::{SHEET_BYTES, TABLES};
use sheet_lines::{Entry, LINES, State, Tables};
use sheet_text::{Names, cut, is_starred};
use tables::words::put_words;

// The most words of a feed that comes from a sheet: two, the counts of all tables, and two for each line.
pub const FEED_WORDS: usize = 2 + TABLES + 2 * LINES;

// What a sheet gives: how many words its feed has, its node names, and its drawing.
#[derive(Clone, Copy)]
pub struct SheetRead<'a> {
    pub feed: usize,
    pub nodes: Names<'a>,
    pub drawing: Drawing,
}

// ---- all lines

// All lines, of a sheet that is not too long. The last has no line feed behind it and must be empty.
fn read_lines<'a>(state: &mut State<'a>, sheet: &'a [u8]) -> Result<(), Refusal>
    requires { Empty state.old }
    ensures { Scanned sheet.now state.new result }
{
    if sheet.len() > SHEET_BYTES {
        return Err(Refusal::Breach(0));
    }
    let mut rest = sheet;
    let mut at: u32 = 1;
    // Until no line feed is left: a `for` over `split` would not know which piece is the last, and that one is no line.
    while let Some((line, behind)) = cut(rest, b'\n') {
        if state.read_line(line).is_none() {
            return Err(Refusal::Breach(at));
        }
        rest = behind;
        at += 1;
    }
    let ended = rest.is_empty();
    if ended & state.is_complete() {
        return Ok(());
    }
    Err(Refusal::Breach(at))
}

// ---- the feed

// How many of the lines are of table k.
fn count_lines(entries: &[Entry], k: u32) -> u32
    requires { length entries.now ≤ most_lines }
    ensures { result ≡ length (lines_of k entries.now) }
{
    entries.iter().filter(|x| x.table == k).count() as u32
}

// Writes how many lines each of the classes has.
fn put_counts(words: &mut [u32], at: usize, t: &Tables) -> usize
    requires { Writable words.old at t.now (map length (tables_of (tables_read t.now))) }
    ensures { Put words.old words.new at (map length (tables_of (tables_read t.now))) result }
{
    let mut out = at;
    for k in 0..t.names.len() {
        out = put_words(words, out, &[count_lines(t.entries(), k as u32)]);
    }
    out
}

// The count word of label k, by its name.
fn label_word(name: &[u8], entries: &[Entry], k: u32) -> u32
    requires { length entries.now ≤ most_lines }
    ensures { result ≡ label_word (label_of entries.now k name.now) }
{
    count_word(count_lines(entries, k), is_starred(name))
}

// Writes the count word of each of the labels.
fn put_label_counts(words: &mut [u32], at: usize, t: &Tables) -> usize
    requires { Writable words.old at t.now (map label_word (labels_of (tables_read t.now))) }
    ensures { Put words.old words.new at (map label_word (labels_of (tables_read t.now))) result }
{
    let mut out = at;
    let names = t.names.as_slice();
    for (k, name) in names.iter().enumerate() {
        out = put_words(words, out, &[label_word(name, t.entries(), k as u32)]);
    }
    out
}

// Writes the pairs of table k, in the order of the lines.
fn put_table(words: &mut [u32], at: usize, entries: &[Entry], k: u32) -> usize
    requires { TableFits words.old at entries.now k }
    ensures { Put words.old words.new at (table_words (lines_of k entries.now)) result }
{
    let mut out = at;
    for x in entries {
        if x.table == k {
            out = put_words(words, out, &[x.entry.left, x.entry.right]);
        }
    }
    out
}

// Writes the pairs of each of the tables.
fn put_tables(words: &mut [u32], at: usize, t: &Tables) -> usize
    requires { Writable words.old at t.now (tables_words (tables_of (tables_read t.now))) }
    ensures { Put words.old words.new at (tables_words (tables_of (tables_read t.now))) result }
{
    let mut out = at;
    for k in 0..t.names.len() {
        out = put_table(words, out, t.entries(), k as u32);
    }
    out
}

// Writes the feed of these classes and labels, and gives its length.
fn put_feed(words: &mut [u32], c: &Tables, l: &Tables) -> usize
    requires { Feedable words.old c.now l.now }
    ensures { Put words.old words.new 0 (feed_words (tables_of (tables_read c.now)) (labels_of (tables_read l.now))) result }
{
    let head = put_words(words, 0, &[c.names.len() as u32, l.names.len() as u32]);
    let first = put_counts(words, head, c);
    let second = put_label_counts(words, first, l);
    let third = put_tables(words, second, c);
    put_tables(words, third, l)
}

// ---- a sheet

// Reads a sheet: its feed's words go to the front of a slice. Not inlined, so that what it reads into is off the stack before the query runs.
#[inline(never)]
pub fn read_sheet<'a>(feed: &mut [u32], sheet: &'a [u8]) -> Result<SheetRead<'a>, Refusal>
    requires { feed_room ≤ length feed.old }
    ensures { Answers sheet.now feed.new result }
{
    let mut state = State::empty();
    read_lines(&mut state, sheet)?;
    let n = put_feed(feed, &state.classes, &state.labels);
    Ok(SheetRead {
        feed: n,
        nodes: state.nodes,
        drawing: state.drawing,
    })
}
