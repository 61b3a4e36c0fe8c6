// The lines of a sheet: what one line adds to what has been read.

#![tactic(auto)]

mod section; // section.rt: the four sections
mod entries; // entries.rt: the classes, or the labels

ghost use Rattle.std.specs.Prelude.{◌≡◌, ◌&&◌, eqb};
ghost use Rattle.sheet_text.specs.Text.{fields};
ghost use Rattle.sheet_lines.specs.Reading.{read_class, read_label, read_node, read_edge, read_values, end_section, read_header, read_line};
ghost use Rattle.sheet_lines.specs.inner.State.{view_of, Empty, Ready, LineTaken};

use drawing::Drawing;
pub use entries::{LINES, Tables};
use limits::{CLASSES, LABELS};
pub use section::Section;
use sheet_text::{
    Names, four_fields, is_label_name, is_name, is_number, is_number_or_dash, number_or_any,
    three_fields, two_fields, value_of,
};
use tables::Pair;

// A line of a class or label: the number of its table, and its pair.
#[derive(Clone, Copy)]
pub struct Entry {
    pub table: u32,
    pub entry: Pair,
}

// What has been read: the section, and whether its name line has been read; the classes, the labels, the names of the nodes, and the drawing.
#[derive(Clone, Copy)]
pub struct State<'a> {
    pub section: Section,
    pub opened: bool,
    pub classes: Tables<'a>,
    pub labels: Tables<'a>,
    pub nodes: Names<'a>,
    pub drawing: Drawing,
}

impl<'a> State<'a> {
    // The state before the first line.
    pub fn empty() -> State<'a>
        ensures { Empty result }
    {
        State {
            section: Section::Classes,
            opened: false,
            classes: Tables::none(),
            labels: Tables::none(),
            nodes: Names::none(),
            drawing: Drawing::empty(),
        }
    }

    // Whether the name line of the last section has been read.
    pub fn is_complete(&self) -> bool
        ensures { result ≡ (eqb (view_of self.now).section 3 && (view_of self.now).opened) }
    {
        (self.section == Section::Edges) & self.opened
    }

    // ---- the four kinds of lines: a class and an object; a label and two objects; a node, its class, its pick, the object that it is fixed to; an edge
    // and its two ends. None is a breach

    // A class line.
    fn read_class(&mut self, line: &'a [u8]) -> Option<()>
        requires { Ready line.now self.old }
        ensures { LineTaken line.now self.old self.new result (λ v. read_class v (fields line.now)) }
    {
        let (name, object) = two_fields(line)?;
        let fits = is_name(name) & self.classes.fits(name, CLASSES) & is_number(object);
        if !fits {
            return None;
        }
        let value = value_of(object);
        self.classes.add(
            name,
            Pair {
                left: value,
                right: value,
            },
        );
        Some(())
    }

    // A label line.
    fn read_label(&mut self, line: &'a [u8]) -> Option<()>
        requires { Ready line.now self.old }
        ensures { LineTaken line.now self.old self.new result (λ v. read_label v (fields line.now)) }
    {
        let (name, from, to) = three_fields(line)?;
        let fits = is_label_name(name)
            & !self.labels.names.clashes(name)
            & self.labels.fits(name, LABELS)
            & is_number(from)
            & is_number(to);
        if !fits {
            return None;
        }
        let left = value_of(from);
        let right = value_of(to);
        self.labels.add(name, Pair { left, right });
        Some(())
    }

    // A node line.
    fn read_node(&mut self, line: &'a [u8]) -> Option<()>
        requires { Ready line.now self.old }
        ensures { LineTaken line.now self.old self.new result (λ v. read_node v (fields line.now)) }
    {
        let (name, class_name, pick, fixed) = four_fields(line)?;
        let class = self.classes.names.find(class_name)? as u32;
        let fits = is_name(name)
            & !self.nodes.knows(name)
            & is_number(pick)
            & is_number_or_dash(fixed);
        if !fits {
            return None;
        }
        let pick = value_of(pick);
        let fixed = number_or_any(fixed);
        self.drawing.add_node(class, pick, fixed).ok()?;
        self.nodes.add(name);
        Some(())
    }

    // An edge line.
    fn read_edge(&mut self, line: &'a [u8]) -> Option<()>
        requires { Ready line.now self.old }
        ensures { LineTaken line.now self.old self.new result (λ v. read_edge v (fields line.now)) }
    {
        let (label_name, source_name, target_name) = three_fields(line)?;
        let label = self.labels.names.find(label_name)? as u32;
        let source = self.nodes.find(source_name)? as u32;
        let target = self.nodes.find(target_name)? as u32;
        self.drawing.add_edge(label, source, target).ok()
    }

    // ---- any line

    // A line where a name line must stand.
    fn read_header(&mut self, line: &'a [u8]) -> Option<()>
        requires { Ready line.now self.old }
        ensures { LineTaken line.now self.old self.new result (λ v. read_header v line.now) }
    {
        if line != self.section.header() {
            return None;
        }
        self.opened = true;
        Some(())
    }

    // An empty line, which ends a section.
    fn end_section(&mut self, line: &'a [u8]) -> Option<()>
        requires { Ready line.now self.old }
        ensures { LineTaken line.now self.old self.new result end_section }
    {
        self.section = self.section.next()?;
        self.opened = false;
        Some(())
    }

    // A line of values, by its section.
    fn read_values(&mut self, line: &'a [u8]) -> Option<()>
        requires { Ready line.now self.old }
        ensures { LineTaken line.now self.old self.new result (λ v. read_values v (fields line.now)) }
    {
        match self.section {
            Section::Classes => self.read_class(line),
            Section::Labels => self.read_label(line),
            Section::Nodes => self.read_node(line),
            Section::Edges => self.read_edge(line),
        }
    }

    // Any line.
    pub fn read_line(&mut self, line: &'a [u8]) -> Option<()>
        requires { Ready line.now self.old }
        ensures { LineTaken line.now self.old self.new result (λ v. read_line v line.now) }
    {
        if !self.opened {
            return self.read_header(line);
        }
        if line.is_empty() {
            return self.end_section(line);
        }
        self.read_values(line)
    }
}
