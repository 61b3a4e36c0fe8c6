// The listing of a query's rows, or of a refusal, in a lent slice of bytes.

#![tactic(auto)]

ghost use Rattle.std.specs.Prelude.{◌≡◌, ◌++◌, ◌≤◌, map};
ghost use Rattle.answers.specs.Answers.{verdict_of};
ghost use Rattle.sheet_text.specs.inner.Parts.{names_of};
ghost use Rattle.sheet_writer.specs.Parts.{parts_of};
ghost use Rattle.sheet_writer.specs.inner.Written.{Put};
ghost use Rattle.sheet_listing.specs.Listing.{line, listing, refusal, listed_in, listed};
ghost use Rattle.sheet_listing.specs.inner.Written.{gap, Finished};

use answers::{Refusal, say};
use sheet_text::Names;
use sheet_writer::{Field, fits, put_byte, put_rows, put_text};

// What stands before a field: a space, but for the first.
fn put_gap(out: &mut [u8], at: usize, first: bool) -> usize
    ensures { Put out.old out.new at (gap first) result }
{
    if first {
        return at;
    }
    put_byte(out, at, b' ')
}

// A field, with what stands before it.
fn put_field<T: Field>(out: &mut [u8], at: usize, field: T, first: bool) -> usize
    ensures { Put out.old out.new at (gap first ++ T.text field) result }
{
    let k = put_gap(out, at, first);
    field.put(out, k)
}

// A line of fields: the names, or a row.
fn put_line<T: Field>(out: &mut [u8], at: usize, fields: &[T]) -> usize
    ensures { Put out.old out.new at (line (map T.text fields.now)) result }
{
    let mut k = at;
    for (i, field) in fields.iter().enumerate() {
        k = put_field(out, k, *field, i == 0);
    }
    put_byte(out, k, b'\n')
}

// The length of the listing that ends before `at`; 0, with the slice zeroed, where it does not fit.
// No `Option`: `listed_in` gives a listing that does not fit the length 0, and C is told so.
fn finish(out: &mut [u8], at: usize) -> usize
    ensures { Finished out.old out.new at result }
{
    if fits(out, at) {
        return at;
    }
    0
}

// Writes the listing of some rows: the names of the picked nodes, then the rows, so many words to a row. Returns its length; 0, with the slice
// zeroed, where it does not fit.
pub fn write_listing(out: &mut [u8], names: &Names, rows: &[u32], picks: usize) -> usize
    requires { 1 ≤ picks }
    ensures { listed result out.new ≡ listed_in (listing (names_of names.now) (parts_of picks rows.now)) out.old }
{
    let k = put_line(out, 0, names.as_slice());
    let end = put_rows(out, k, rows, picks, put_line);
    finish(out, end)
}

// Writes the listing of a refusal, in the same way; that of an answer that accepts has the numbers 0 and 0.
pub fn write_refusal(out: &mut [u8], answer: Result<(), Refusal>) -> usize
    ensures { listed result out.new ≡ listed_in (refusal (verdict_of answer)) out.old }
{
    let mut place = 0;
    let number = say(answer, &mut place);
    let k = put_text(out, 0, b"refused");
    let n = put_field(out, k, number, false);
    let p = put_field(out, n, place, false);
    let end = put_byte(out, p, b'\n');
    finish(out, end)
}
