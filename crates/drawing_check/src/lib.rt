// The check of a drawing beside a feed: of one that was built line by line, and of words.

#![tactic(auto)]

ghost use Rattle.std.specs.Prelude.{ℕ, ◌≡◌, ◌+◌, ◌*◌, ◌≤◌, length, drop};
ghost use Rattle.limits.specs.Limits.{most_nodes, most_edges};
ghost use Rattle.tables.specs.Lists.{any};
ghost use Rattle.answers.specs.Verdict.{Verdict, accepted, ◌then◌};
ghost use Rattle.answers.specs.Answers.{verdict_of};
ghost use Rattle.drawing.specs.Drawing.{head_width, node_width, word_count, is_picked, node_of, read_each, drawing_words, pattern_of, check_node, check_edge, check_each, check_length, check_pattern, check_drawing};
ghost use Rattle.drawing.specs.Builder.{view};
ghost use Rattle.drawing_check.specs.declared.Counts.{Counts};

use answers::Refusal;
use drawing::words::{
    FIXED, HEAD_WORDS, MOST_WORDS, NODE_WORDS, PICK, Part, SOURCE, TARGET, right_length,
};
use drawing::{Drawing, Edge, Node};
use feed::{check_feed, class_count, label_count};
use limits::ANY_OBJECT;

// How many there are of what a drawing names.
#[derive(Clone, Copy)]
struct Counts {
    classes: u32,
    labels: u32,
    nodes: usize,
}

// A part of a drawing, and its check, by the counts and the place of its words.
trait Checked: Part {
    ghost verdict: { Counts → ℕ → Self → Verdict };

    fn check(self, at: usize, counts: Counts) -> Result<(), Refusal>
        requires { at + Self.WORDS ≤ word_count most_nodes most_edges }
        ensures { verdict_of result ≡ verdict counts at self };
}

impl Checked for Node {
    ghost verdict = { λ k at v. check_node k.classes at v };

    fn check(self, at: usize, counts: Counts) -> Result<(), Refusal> {
        if self.class >= counts.classes {
            return Err(Refusal::Missing(at as u32));
        }
        if self.pick > 1 {
            return Err(Refusal::Missing((at + PICK) as u32));
        }
        if self.fixed > ANY_OBJECT {
            return Err(Refusal::Missing((at + FIXED) as u32));
        }
        Ok(())
    }
}

impl Checked for Edge {
    ghost verdict = { λ k at x. check_edge k.labels k.nodes at x };

    fn check(self, at: usize, counts: Counts) -> Result<(), Refusal> {
        if self.label >= counts.labels {
            return Err(Refusal::Missing(at as u32));
        }
        if self.source as usize >= counts.nodes {
            return Err(Refusal::Missing((at + SOURCE) as u32));
        }
        if self.target as usize >= counts.nodes {
            return Err(Refusal::Missing((at + TARGET) as u32));
        }
        Ok(())
    }
}

// The n parts whose words start at `from`, each in turn. They are read one by one: no struct is filled for the check.
fn check_each<T: Checked>(
    words: &[u32],
    from: usize,
    n: usize,
    counts: Counts,
) -> Result<(), Refusal>
    requires inside { from + T.WORDS * n ≤ length words.now }
    requires few { length words.now ≤ word_count most_nodes most_edges }
    ensures { verdict_of result ≡ check_each (T.verdict counts) T.WORDS from (read_each T.part_of T.WORDS n (drop from words.now)) }
{
    for i in 0..n {
        let at = from + T::WORDS * i;
        T::read(words, at).check(at, counts)?;
    }
    Ok(())
}

// Whether one of the n nodes is picked.
fn has_pick(words: &[u32], n: usize) -> bool
    requires { head_width + node_width * n ≤ length words.now }
    ensures { result ≡ any is_picked (read_each node_of node_width n (drop head_width words.now)) }
{
    for i in 0..n {
        if Node::read(words, HEAD_WORDS + NODE_WORDS * i).pick == 1 {
            return true;
        }
    }
    false
}

// The check of what words of the right length show. Of the feed only the two counts are read.
fn check_pattern(feed: &[u32], words: &[u32]) -> Result<(), Refusal>
    requires headed { 2 ≤ length feed.now }
    requires sized { check_length words.now ≡ accepted }
    ensures { verdict_of result ≡ check_pattern feed.now (pattern_of words.now) }
{
    let nodes = words[0] as usize;
    let edges = words[1] as usize;
    let counts = Counts {
        classes: class_count(feed),
        labels: label_count(feed),
        nodes,
    };
    check_each::<Node>(words, HEAD_WORDS, nodes, counts)?;
    check_each::<Edge>(words, HEAD_WORDS + NODE_WORDS * nodes, edges, counts)?;
    if has_pick(words, nodes) {
        return Ok(());
    }
    Err(Refusal::Unpicked)
}

// The check of words beside a feed that was accepted.
fn check_words(feed: &[u32], words: &[u32]) -> Result<(), Refusal>
    requires { 2 ≤ length feed.now }
    ensures { verdict_of result ≡ (check_length words.now then check_pattern feed.now (pattern_of words.now)) }
{
    if right_length(words) {
        return check_pattern(feed, words);
    }
    Err(Refusal::DrawingLength)
}

// The check of a feed, then of the words of a drawing.
pub fn check_drawing(feed: &[u32], words: &[u32]) -> Result<(), Refusal>
    ensures { verdict_of result ≡ check_drawing feed.now words.now }
{
    check_feed(feed)?;
    check_words(feed, words)
}

// The check of a feed, then of a drawing that was built: what its words are told.
pub fn check_built(feed: &[u32], d: Drawing) -> Result<(), Refusal>
    ensures { verdict_of result ≡ check_drawing feed.now (drawing_words (view d)) }
{
    let mut words = [0u32; MOST_WORDS];
    let n = d.write(&mut words);
    check_drawing(feed, &words[0..n])
}
