// The four sections of a sheet, in order.

ghost use Rattle.std.specs.Prelude.{◌≡◌, ◌+◌, [], get_or};
ghost use Rattle.std.specs.Option.{MatchOption};
ghost use Rattle.sheet_lines.specs.Reading.{headers};
ghost use Rattle.sheet_lines.specs.inner.State.{number_of};

// A section.
#[derive(Clone, Copy, Debug, PartialEq, Eq)]
pub enum Section {
    Classes,
    Labels,
    Nodes,
    Edges,
}

impl Section {
    // Its name line.
    pub fn header(self) -> &'static [u8]
        ensures { result.now ≡ get_or headers (number_of self) [] }
    {
        match self {
            Section::Classes => b"class object".as_slice(),
            Section::Labels => b"label from to".as_slice(),
            Section::Nodes => b"node class pick fixed".as_slice(),
            Section::Edges => b"edge source target".as_slice(),
        }
    }

    // The section behind it.
    pub fn next(self) -> Option<Section>
        ensures { MatchOption result (number_of self ≡ 3) (λ k. number_of k ≡ number_of self + 1) }
    {
        match self {
            Section::Classes => Some(Section::Labels),
            Section::Labels => Some(Section::Nodes),
            Section::Nodes => Some(Section::Edges),
            Section::Edges => None,
        }
    }
}
