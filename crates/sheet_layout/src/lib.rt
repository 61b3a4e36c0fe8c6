// Pages of names and rows in a lent slice of bytes. As in `sheet_writer`, a function that writes takes the place where its text starts, and returns
// the place after it.

#![tactic(auto)]

ghost use Rattle.std.specs.Prelude.{◌≡◌, ◌*◌, ◌-◌, ◌≤◌, length, replicate};
ghost use mathlib.Core.List.{[], ◌∷◌, ◌++◌, map};
ghost use Rattle.limits.specs.Limits.{most_columns, column_width, page_rows};
ghost use Rattle.sheet_text.specs.inner.Parts.{names_of};
ghost use Rattle.sheet_writer.specs.Parts.{parts_of};
ghost use Rattle.sheet_writer.specs.inner.Written.{Put};
ghost use Rattle.sheet_layout.specs.Pages.{set_right, column_line, number_line, page, pages_from, pages};
ghost use Rattle.sheet_layout.specs.inner.Pageable.{Pageable};

use limits::{COLUMN_WIDTH, COLUMNS, LINE_WIDTH, PAGE_ROWS};
use sheet_text::Names;
use sheet_writer::{Field, put_byte, put_number, put_rows, put_text};

// So many spaces.
fn put_spaces(out: &mut [u8], at: usize, n: usize) -> usize
    ensures { Put out.old out.new at (replicate n 32) result }
{
    let mut k = at;
    for i in 0..n {
        k = put_byte(out, k, b' ');
    }
    k
}

// A field, set right in its column.
fn put_column<T: Field>(out: &mut [u8], at: usize, field: T) -> usize
    ensures { Put out.old out.new at (set_right column_width (T.text field)) result }
{
    let spaces = COLUMN_WIDTH.saturating_sub(field.width());
    let start = put_spaces(out, at, spaces);
    field.put(out, start)
}

// What follows so many columns: spaces up to the end of the line, and a line feed.
fn end_line(out: &mut [u8], at: usize, used: usize) -> usize
    ensures { Put out.old out.new at (replicate (column_width * (most_columns - used)) 32 ++ (10 ∷ [])) result }
{
    let blank = COLUMNS.saturating_sub(used);
    let k = put_spaces(out, at, COLUMN_WIDTH * blank);
    put_byte(out, k, b'\n')
}

// A line of columns: the names, or a row.
fn put_columns<T: Field>(out: &mut [u8], at: usize, fields: &[T]) -> usize
    ensures { Put out.old out.new at (column_line (map T.text fields.now)) result }
{
    let mut k = at;
    for field in fields {
        k = put_column(out, k, *field);
    }
    end_line(out, k, fields.len())
}

// The line of a page's number.
fn put_page_number(out: &mut [u8], at: usize, number: u32) -> usize
    ensures { Put out.old out.new at (number_line number) result }
{
    let spaces = LINE_WIDTH.saturating_sub(5 + number.width());
    let k = put_spaces(out, at, spaces);
    let m = put_text(out, k, b"page ");
    let e = put_number(out, m, number);
    put_byte(out, e, b'\n')
}

// A page: the names, the rows and the page's number.
fn put_page(
    out: &mut [u8],
    at: usize,
    names: &Names,
    rows: &[u32],
    picks: usize,
    number: u32,
) -> usize
    requires { 1 ≤ picks }
    ensures { Put out.old out.new at (page number (names_of names.now) (parts_of picks rows.now)) result }
{
    let k = put_columns(out, at, names.as_slice());
    let m = put_rows(out, k, rows, picks, put_columns);
    put_page_number(out, m, number)
}

// The pages from the second on, where there are rows for them.
fn put_more(out: &mut [u8], at: usize, names: &Names, rows: &[u32], picks: usize) -> usize
    requires { Pageable rows.now picks }
    ensures { Put out.old out.new at (pages_from 2 (names_of names.now) (parts_of page_rows (parts_of picks rows.now))) result }
{
    let mut k = at;
    for (i, page) in rows.chunks(PAGE_ROWS * picks).enumerate() {
        k = put_page(out, k, names, page, picks, i as u32 + 2);
    }
    k
}

// The pages of some rows, so many words to a row, from the start of the slice. The first is there even without a row.
pub fn put_pages(out: &mut [u8], names: &Names, rows: &[u32], picks: usize) -> usize
    requires { Pageable rows.now picks }
    ensures { Put out.old out.new 0 (pages (names_of names.now) (parts_of picks rows.now)) result }
{
    let (page, rest) = rows.split_at((PAGE_ROWS * picks).min(rows.len()));
    let k = put_page(out, 0, names, page, picks, 1);
    put_more(out, k, names, rest, picks)
}
