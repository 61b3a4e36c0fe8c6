// Names by number, and the search for one.

ghost use Rattle.std.specs.Prelude.{◌≡◌, [], ◌∷◌, ◌++◌, ◌<◌, ◌≤◌, length};
ghost use Rattle.limits.specs.Limits.{most_labels};

use crate::differ_by_star;
use limits::LABELS;

// Names by number: the first n are there.
#[derive(Clone, Copy)]
pub struct Names<'a> {
    texts: [&'a [u8]; LABELS],
    n: usize,
    ghost few: { n ≤ most_labels },
    ghost size: { length texts ≡ most_labels },
}

impl<'a> Names<'a> {
    ghost use Rattle.sheet_text.specs.Text.{known, clashes};
    ghost use Rattle.sheet_text.specs.inner.Parts.{texts, names_of, Found};

    // No names.
    pub fn none() -> Names<'a>
        ensures { names_of result ≡ [] }
    {
        Names {
            texts: [b""; LABELS],
            n: 0,
        }
    }

    // The names that are there.
    pub fn as_slice(&self) -> &[&'a [u8]]
        ensures { texts result.now ≡ names_of self.now }
    {
        &self.texts[..self.n]
    }

    // How many there are.
    pub fn len(&self) -> usize
        ensures { result ≡ length (names_of self.now) }
    {
        self.as_slice().len()
    }

    // The number of a name; None where it is none of them.
    pub fn find(&self, name: &[u8]) -> Option<usize>
        ensures { Found name.now (names_of self.now) result }
    {
        self.as_slice().iter().position(|x| name == *x)
    }

    // Whether a name is one of them.
    pub fn knows(&self, name: &[u8]) -> bool
        ensures { result ≡ known name.now (names_of self.now) }
    {
        self.find(name).is_some()
    }

    // One name more.
    pub fn add(&mut self, name: &'a [u8])
        requires { length (names_of self.old) < most_labels }
        ensures { names_of self.new ≡ names_of self.old ++ (name.now ∷ []) }
    {
        self.texts[self.n] = name;
        self.n += 1;
    }

    // Whether one of them is this one in its other writing.
    pub fn clashes(&self, name: &[u8]) -> bool
        ensures { result ≡ clashes name.now (names_of self.now) }
    {
        self.as_slice().iter().any(|x| differ_by_star(name, x))
    }
}
