// The classes, or the labels, as their lines are read.

ghost use Rattle.std.specs.Prelude.{◌≡◌, true, ◌≤◌, ◌<◌, length};
ghost use Rattle.sheet_lines.specs.inner.Lines.{most_lines};

use crate::Entry;
use limits::SHEET_BYTES;
use sheet_text::Names;
use tables::Pair;

// The most lines of the classes or of the labels: a line has at least four bytes.
pub const LINES: usize = SHEET_BYTES / 4;

// The names of the classes, or of the labels, by number, and their lines in order: the first are there.
#[derive(Clone, Copy)]
pub struct Tables<'a> {
    pub names: Names<'a>,
    entries: [Entry; LINES],
    lines: usize,
    ghost few: { lines ≤ most_lines },
    ghost size: { length entries ≡ most_lines },
}

impl<'a> Tables<'a> {
    ghost use Rattle.sheet_lines.specs.Reading.{fits_table, with_line};
    ghost use Rattle.sheet_text.specs.inner.Parts.{names_of};
    ghost use Rattle.sheet_lines.specs.inner.State.{tables_read, nothing_read, Fitting, Numbered, Linable};

    // No name and no line.
    pub fn none() -> Tables<'a>
        ensures { tables_read result ≡ nothing_read }
    {
        let pair = Pair { left: 0, right: 0 };
        let entry = Entry {
            table: 0,
            entry: pair,
        };
        Tables {
            names: Names::none(),
            entries: [entry; LINES],
            lines: 0,
        }
    }

    // The lines.
    pub fn entries(&self) -> &[Entry]
        ensures { result.now ≡ (tables_read self.now).lines }
    {
        &self.entries[..self.lines]
    }

    // Whether a name is known, or there is room for it.
    pub fn fits(&self, name: &[u8], ceiling: usize) -> bool
        requires { length (names_of (self.now).names) ≤ ceiling }
        ensures { result ≡ fits_table ceiling name.now (names_of (self.now).names) }
    {
        (self.names.len() < ceiling) | self.names.knows(name)
    }

    // The number of a name, which is added where it is new.
    fn number(&mut self, name: &'a [u8]) -> usize
        requires { Fitting name.now (self.old).names }
        ensures { Numbered name.now self.old self.new result }
    {
        if let Some(k) = self.names.find(name) {
            return k;
        }
        let k = self.names.len();
        self.names.add(name);
        k
    }

    // One line more.
    pub fn add(&mut self, name: &'a [u8], entry: Pair)
        requires { Linable name.now self.old }
        ensures { tables_read self.new ≡ with_line name.now entry (tables_read self.old) }
    {
        let table = self.number(name) as u32;
        self.entries[self.lines] = Entry { table, entry };
        self.lines += 1;
    }
}
