// Limits: every ceiling of document 01, the mark of a two-way label, the word for any object and the measures of a page, once for the code. `specs/Limits.antt` has them once for the definitions; `all_limits` shows that the two agree.

#![tactic(auto)]

ghost use Rattle.std.specs.Prelude.{◌≡◌};
ghost use Rattle.limits.specs.Limits.{all_limits};

// The most classes and the most labels of a feed, and the tables that these make.
pub const CLASSES: usize = 32;

pub const LABELS: usize = 64;

pub const TABLES: usize = CLASSES + LABELS;

// The most pairs of a table of a feed, and the largest object.
pub const TABLE_PAIRS: usize = 4096;

pub const OBJECT: u32 = 65535;

// By how much the count word of a two-way label is raised.
pub const TWO_WAY: u32 = 32768;

// The most nodes, edges and picked nodes of a drawing.
pub const NODES: usize = 12;

pub const EDGES: usize = 24;

pub const PICKS: usize = 12;

// The third word of a node that may be any object.
pub const ANY_OBJECT: u32 = 65536;

// The most instructions of a list, the words that they take, and the places where their registers start and end.
pub const INSTRUCTIONS: usize = 1024;

pub const LIST_WORDS: usize = 3 * INSTRUCTIONS;

pub const ENDS: usize = INSTRUCTIONS + 1;

// The most pairs of a register, and the step from one register's tags to the next one's.
pub const PAIRS: usize = 65536;

pub const TAGS: u32 = 65536;

// The most bytes of a sheet, and the work words and row words that a sheet query lends itself.
pub const SHEET_BYTES: usize = 16384;

pub const SHEET_WORK: usize = 16384;

pub const SHEET_ROWS: usize = 4096;

// The most letters of a name, and the most digits of a number.
pub const LETTERS: usize = 12;

pub const DIGITS: usize = 5;

// The columns of a page, the characters of a column and of a line, and the most rows of a page.
pub const COLUMNS: usize = 5;

pub const COLUMN_WIDTH: usize = 13;

pub const LINE_WIDTH: usize = COLUMNS * COLUMN_WIDTH;

pub const PAGE_ROWS: usize = 50;

// All of them.
#[derive(Clone, Copy)]
pub struct Limits {
    pub classes: usize,
    pub labels: usize,
    pub tables: usize,
    pub entries: usize,
    pub object: u32,
    pub mark: u32,
    pub nodes: usize,
    pub edges: usize,
    pub picks: usize,
    pub any: u32,
    pub instructions: usize,
    pub words: usize,
    pub ends: usize,
    pub pairs: usize,
    pub tags: u32,
    pub bytes: usize,
    pub work: usize,
    pub rows: usize,
    pub letters: usize,
    pub digits: usize,
    pub columns: usize,
    pub column: usize,
    pub line: usize,
    pub page: usize,
}

// The limits of the code are those of the definitions.
#[tactic(auto, unfolding(crate::specs::Limits::all_limits))]
pub fn all_limits() -> Limits
    ensures { result ≡ all_limits }
{
    Limits {
        classes: CLASSES,
        labels: LABELS,
        tables: TABLES,
        entries: TABLE_PAIRS,
        object: OBJECT,
        mark: TWO_WAY,
        nodes: NODES,
        edges: EDGES,
        picks: PICKS,
        any: ANY_OBJECT,
        instructions: INSTRUCTIONS,
        words: LIST_WORDS,
        ends: ENDS,
        pairs: PAIRS,
        tags: TAGS,
        bytes: SHEET_BYTES,
        work: SHEET_WORK,
        rows: SHEET_ROWS,
        letters: LETTERS,
        digits: DIGITS,
        columns: COLUMNS,
        column: COLUMN_WIDTH,
        line: LINE_WIDTH,
        page: PAGE_ROWS,
    }
}
