// The words of a drawing: two counts, then those of each node, then those of each edge. Their widths and their order stand here, once for the code.

ghost use Rattle.std.specs.Prelude.{ℕ, List, ◌≡◌, ◌+◌, ◌*◌, ◌≤◌, length, drop};
ghost use mathlib.Core.List.{flat_map};
ghost use Rattle.answers.specs.Verdict.{accepted, unless};
ghost use Rattle.tables.specs.inner.Words.{Put};
ghost use Rattle.drawing.specs.Drawing.{node_width, edge_width, node_of, edge_of, node_words, edge_words, drawing_words, read_each, check_length};
ghost use Rattle.drawing.specs.Builder.{view, WrittenOut};
ghost use Rattle.drawing.specs.inner.Parts.{Read};

use crate::{Drawing, Edge, Node};
use tables::words::put_words;

// ---- the layout

// The counts: nodes, edges.
pub const HEAD_WORDS: usize = 2;

// A node: class, pick, fixed.
pub const NODE_WORDS: usize = 3;

pub const PICK: usize = 1;

pub const FIXED: usize = 2;

// A part of a drawing that stands there several times, each in so many words.
pub trait Part: Copy {
    ghost WORDS: { ℕ };

    ghost words_of: { Self → List ℕ };

    ghost part_of: { List ℕ → Self };

    const WORDS: usize;

    // The part whose words start at `at`.
    fn read(words: &[u32], at: usize) -> Self
        requires { at + WORDS ≤ length words.now }
        ensures { result ≡ part_of (drop at words.now) };

    // Writes its words from place `at` on, and gives the place behind them.
    fn put(self, words: &mut [u32], at: usize) -> usize
        requires { at + length (words_of self) ≤ length words.old }
        ensures { Put words.old words.new at (words_of self) result };
}

impl Part for Node {
    ghost WORDS = { node_width };

    ghost words_of = { node_words };

    ghost part_of = { node_of };

    const WORDS: usize = NODE_WORDS;

    fn read(words: &[u32], at: usize) -> Node {
        Node {
            class: words[at],
            pick: words[at + PICK],
            fixed: words[at + FIXED],
        }
    }

    #[tactic(auto, unfolding(crate::specs::Drawing::node_words))]
    fn put(self, words: &mut [u32], at: usize) -> usize {
        put_words(words, at, &[self.class, self.pick, self.fixed])
    }
}

// An edge: label, source, target.
pub const EDGE_WORDS: usize = 3;

pub const SOURCE: usize = 1;

pub const TARGET: usize = 2;

impl Part for Edge {
    ghost WORDS = { edge_width };

    ghost words_of = { edge_words };

    ghost part_of = { edge_of };

    const WORDS: usize = EDGE_WORDS;

    fn read(words: &[u32], at: usize) -> Edge {
        Edge {
            label: words[at],
            source: words[at + SOURCE],
            target: words[at + TARGET],
        }
    }

    #[tactic(auto, unfolding(crate::specs::Drawing::edge_words))]
    fn put(self, words: &mut [u32], at: usize) -> usize {
        put_words(words, at, &[self.label, self.source, self.target])
    }
}

// Those of the largest drawing.
pub const MOST_WORDS: usize = HEAD_WORDS
    + NODE_WORDS * Drawing::NODES
    + EDGE_WORDS * Drawing::EDGES;

// ---- from words

// Whether the counts are within their ceilings, and give the length.
pub fn right_length(words: &[u32]) -> bool
    ensures { unless result 5 0 ≡ check_length words.now }
{
    if words.len() < HEAD_WORDS {
        return false;
    }
    let n = words[0] as usize;
    let e = words[1] as usize;
    if n < 1 {
        return false;
    }
    if n > Drawing::NODES {
        return false;
    }
    if e > Drawing::EDGES {
        return false;
    }
    words.len() == HEAD_WORDS + NODE_WORDS * n + EDGE_WORDS * e
}

// Reads the parts whose words start at `at`, one for each place of a slice.
fn read_each<T: Part>(xs: &mut [T], words: &[u32], at: usize)
    requires { at + T.WORDS * length xs.old ≤ length words.now }
    ensures { xs.new ≡ read_each T.part_of T.WORDS (length xs.old) (drop at words.now) }
{
    let mut from = at;
    for x in xs.iter_mut() {
        *x = T::read(words, from);
        from += T::WORDS;
    }
}

// The drawing of words whose length is right, so that every line fits.
pub fn read_drawing(words: &[u32]) -> Drawing
    requires { check_length words.now ≡ accepted }
    ensures { Read words.now result }
{
    let n = words[0] as usize;
    let e = words[1] as usize;
    let Drawing {
        mut nodes,
        mut edges,
        ..
    } = Drawing::empty();
    read_each(&mut nodes[..n], words, HEAD_WORDS);
    read_each(&mut edges[..e], words, HEAD_WORDS + NODE_WORDS * n);
    Drawing { nodes, edges, n, e }
}

// ---- to words

// Writes parts from place `at` on, and gives the place behind them.
fn write_each<T: Part>(words: &mut [u32], at: usize, xs: &[T]) -> usize
    requires { at + length (flat_map T.words_of xs.now) ≤ length words.old }
    ensures { Put words.old words.new at (flat_map T.words_of xs.now) result }
{
    let mut out = at;
    for x in xs {
        out = x.put(words, out);
    }
    out
}

// Writes the words to the front of a slice that is long enough, and gives how many they are.
fn write_all(words: &mut [u32], d: Drawing) -> usize
    requires { length (drawing_words (view d)) ≤ length words.old }
    ensures { Put words.old words.new 0 (drawing_words (view d)) result }
{
    let nodes = d.nodes();
    let edges = d.edges();
    let head = put_words(words, 0, &[nodes.len() as u32, edges.len() as u32]);
    let next = write_each(words, head, nodes);
    write_each(words, next, edges)
}

impl Drawing {
    // Writes the words of the drawing to the front of a slice where they fit, and gives how many they are.
    pub fn write(self, words: &mut [u32]) -> usize
        ensures { WrittenOut (drawing_words (view self)) words.old words.new result }
    {
        let count = HEAD_WORDS + NODE_WORDS * self.nodes().len() + EDGE_WORDS * self.edges().len();
        if words.len() < count {
            return count;
        }
        write_all(words, self)
    }
}
