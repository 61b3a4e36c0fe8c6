// Cases of the query. Drawings are built line by line, written out as words, checked and asked; the rows are printed from the part of the row
// slice that the query hands back. Each case prints a line: its name, number and place, then words.

#![tactic(auto)]

use answers::{Refusal, say};
use drawing::words::MOST_WORDS;
use drawing::{Drawing, Edge, Node};
use drawing_check::check_drawing;
use limits::{ANY_OBJECT, LIST_WORDS};
use query::query;
use std::io;

// A node of class 0, picked or not, that may be any object.
const PICKED: Node = Node {
    class: 0,
    pick: 1,
    fixed: ANY_OBJECT,
};

const UNPICKED: Node = Node {
    class: 0,
    pick: 0,
    fixed: ANY_OBJECT,
};

// An edge of label 0 between nodes 0 and 1.
const BETWEEN: Edge = Edge {
    label: 0,
    source: 0,
    target: 1,
};

// Prints a text, then a number.
fn print(rt: &impl Print, text: &str, n: u32) -> io::Result<()> {
    print!(rt; "{text}{n}")
}

// Prints some words.
fn print_words(rt: &impl Print, words: &[u32]) -> io::Result<()> {
    for word in words {
        print(rt, " ", *word)?;
    }
    Ok(())
}

// Prints a case's name, number and place, then some words.
fn show(rt: &impl Print, name: &str, number: u32, place: u32, words: &[u32]) -> io::Result<()> {
    print!(rt; "{name}: {number} {place}:")?;
    print_words(rt, words)?;
    println!(rt; "")
}

// A line's answer, and how many nodes and edges the drawing has after it.
fn show_line(
    rt: &impl Print,
    name: &str,
    answer: Result<(), Refusal>,
    d: &Drawing,
) -> io::Result<()> {
    let mut place = 0;
    let number = say(answer, &mut place);
    let nodes = d.nodes().len();
    let edges = d.edges().len();
    println!(rt; "{name}: {number} {place}: nodes {nodes}, edges {edges}")
}

// The words of a drawing, and what its check says of them.
fn show_check(rt: &impl Print, name: &str, feed: &[u32], d: Drawing) -> io::Result<()> {
    let mut words = [0u32; MOST_WORDS];
    let n = d.write(&mut words);
    if words.len() < n {
        return Ok(());
    }
    let mut place = 0;
    let number = say(check_drawing(feed, &words[0..n]), &mut place);
    show(rt, name, number, place, &words[0..n])
}

// The rows of a drawing, in the part that the query hands back of a slice of so many words; with so many work words.
fn show_rows(
    rt: &impl Print,
    name: &str,
    feed: &[u32],
    d: Drawing,
    work: &mut [u32],
    rows: &mut [u32],
) -> io::Result<()> {
    let mut words = [0u32; MOST_WORDS];
    let n = d.write(&mut words);
    if words.len() < n {
        return Ok(());
    }
    let mut list = [0u32; LIST_WORDS];
    let mut number = 0;
    let mut place = 0;
    let part = query(
        feed,
        &words[0..n],
        &mut list,
        work,
        rows,
        &mut number,
        &mut place,
    );
    show(rt, name, number, place, part)
}

// The drawing of these nodes and edges, as far as there is room for them.
fn drawn(nodes: &[Node], edges: &[Edge]) -> Drawing {
    let mut d = Drawing::empty();
    for v in nodes {
        let _ = d.add_node(v.class, v.pick, v.fixed);
    }
    for x in edges {
        let _ = d.add_edge(x.label, x.source, x.target);
    }
    d
}

// Three nodes of class 0 in a row, the two outer ones picked, as in document 01's sheet; the one between them is this object.
fn row_of_three(middle: u32) -> Drawing {
    let between = Node {
        fixed: middle,
        ..UNPICKED
    };
    let second = Edge {
        label: 0,
        source: 1,
        target: 2,
    };
    drawn(&[PICKED, between, PICKED], &[BETWEEN, second])
}

// Document 01's sheet: its words, its rows, and no part of a slice that is too short. Of 42 work words the paths and the last node's register stay; with
// 41 there is no room at instruction 5, before which the loads stand.
fn sheet(rt: &impl Print) -> io::Result<()> {
    let feed = [1u32, 1, 4, 3, 1, 1, 2, 2, 3, 3, 4, 4, 1, 2, 2, 3, 3, 4];
    let d = row_of_three(ANY_OBJECT);
    show_check(rt, "sheet", &feed, d)?;
    let mut work = [7u32; 42];
    let mut nine = [7u32; 9];
    show_rows(rt, "its rows", &feed, d, &mut work, &mut nine)?;
    show(rt, "the slice", 0, 0, &nine)?;
    show(rt, "the work slice", 0, 0, &work)?;
    let mut four = [7u32; 4];
    show_rows(rt, "in four words", &feed, d, &mut work, &mut four)?;
    let mut three = [7u32; 3];
    show_rows(rt, "in three words", &feed, d, &mut work, &mut three)?;
    show(rt, "the slice", 0, 0, &three)?;
    show(rt, "the work slice", 0, 0, &work)?;
    let mut short = [7u32; 41];
    show_rows(rt, "with 41 work words", &feed, d, &mut short, &mut four)?;
    show(rt, "the slice", 0, 0, &four)?;
    show(rt, "the work slice", 0, 0, &short)
}

// The same drawing over a two-way label, whose pairs (2,1), (2,3) and (4,3) are met in either direction; and with a mark on the class.
fn two_way(rt: &impl Print) -> io::Result<()> {
    let feed = [1u32, 1, 4, 32771, 1, 1, 2, 2, 3, 3, 4, 4, 2, 1, 2, 3, 4, 3];
    let d = row_of_three(ANY_OBJECT);
    show_check(rt, "two-way", &feed, d)?;
    let mut work = [0u32; 200];
    let mut enough = [7u32; 17];
    show_rows(rt, "its rows", &feed, d, &mut work, &mut enough)?;
    show(rt, "the slice", 0, 0, &enough)?;
    let mut short = [7u32; 15];
    show_rows(rt, "in fifteen words", &feed, d, &mut work, &mut short)?;
    let marked = [1u32, 1, 32772, 0, 1, 1, 2, 2, 3, 3, 4, 4];
    show_rows(rt, "a marked class", &marked, d, &mut work, &mut enough)
}

// The same drawing with its middle fixed: to an object that has rows, to one that is not in the class, and past the word for any object.
fn fixed(rt: &impl Print) -> io::Result<()> {
    let feed = [1u32, 1, 4, 3, 1, 1, 2, 2, 3, 3, 4, 4, 1, 2, 2, 3, 3, 4];
    let mut work = [0u32; 200];
    let mut rows = [7u32; 3];
    show_check(rt, "fixed to 2", &feed, row_of_three(2))?;
    show_rows(rt, "its rows", &feed, row_of_three(2), &mut work, &mut rows)?;
    show(rt, "the slice", 0, 0, &rows)?;
    let mut none = [7u32; 3];
    show_check(rt, "fixed to 65535", &feed, row_of_three(65535))?;
    show_rows(
        rt,
        "its rows",
        &feed,
        row_of_three(65535),
        &mut work,
        &mut none,
    )?;
    show(rt, "the slice", 0, 0, &none)?;
    show_check(rt, "fixed to 65537", &feed, row_of_three(65537))?;
    show_rows(
        rt,
        "its rows",
        &feed,
        row_of_three(65537),
        &mut work,
        &mut none,
    )
}

// Twelve nodes and one more, 24 edges and one more.
fn full(rt: &impl Print) -> io::Result<()> {
    let mut d = drawn(&[PICKED; Drawing::NODES], &[]);
    let node = d.add_node(0, 1, ANY_OBJECT);
    show_line(rt, "12 nodes and one more", node, &d)?;
    let mut e = drawn(&[PICKED; Drawing::NODES], &[BETWEEN; Drawing::EDGES]);
    let edge = e.add_edge(0, 0, 1);
    show_line(rt, "24 edges and one more", edge, &e)
}

// A line takes any words: 6 and 7 wait for the drawing's check.
fn waiting(rt: &impl Print) -> io::Result<()> {
    let feed = [1u32, 1, 1, 0, 5, 5];
    let mut missing = Drawing::empty();
    let node = missing.add_node(3, 1, ANY_OBJECT);
    show_line(rt, "a class that does not exist", node, &missing)?;
    show_check(rt, "its check", &feed, missing)?;
    let mut early = Drawing::empty();
    let edge = early.add_edge(0, 0, 1);
    show_line(rt, "an edge before its nodes", edge, &early)?;
    show_check(rt, "its check", &feed, early)?;
    let _ = early.add_node(0, 1, ANY_OBJECT);
    show_check(rt, "its nodes added", &feed, early)?;
    let mut unpicked = Drawing::empty();
    let alone = unpicked.add_node(0, 0, ANY_OBJECT);
    show_line(rt, "no node picked", alone, &unpicked)?;
    show_check(rt, "its check", &feed, unpicked)?;
    let mut work = [0u32; 200];
    let mut rows = [7u32; 2];
    show_rows(rt, "its rows", &feed, unpicked, &mut work, &mut rows)
}

fn main(rt: HostRuntime) -> io::Result<()> {
    sheet(&rt)?;
    two_way(&rt)?;
    fixed(&rt)?;
    full(&rt)?;
    waiting(&rt)
}
