// The sheet query: a sheet's bytes in, a listing's bytes out.

#![tactic(auto)]

ghost use Rattle.std.specs.Prelude.{◌≡◌, length};
ghost use Rattle.drawing.specs.Builder.{view};
ghost use Rattle.query_answer.specs.Query.{pick_count};
ghost use Rattle.sheet_text.specs.inner.Parts.{names_of};
ghost use Rattle.sheet_listing.specs.Listing.{listed_in, listed};
ghost use Rattle.sheet.specs.SheetQuery.{own_slices, query_text, sheet_query};
ghost use Rattle.sheet.specs.inner.Printing.{Asked};

use answers::Refusal;
use drawing::Drawing;
use limits::{DIGITS, ENDS, LETTERS, LIST_WORDS, NODES, SHEET_BYTES, SHEET_ROWS, SHEET_WORK};
use query_answer::query_built;
use sheet_listing::{write_listing, write_refusal};
use sheet_reader::{FEED_WORDS, read_sheet};
use sheet_text::Names;
use sheet_writer::picked_names;

// As many bytes as decide a listing: one more than a sheet may have.
pub const DECIDING_BYTES: usize = SHEET_BYTES + 1;

// No listing is longer: 12 names of 12 letters, 4,096 row words of 5 digits, and a space or a line feed behind each.
pub const LONGEST_LISTING: usize = NODES * (LETTERS + 1) + SHEET_ROWS * (DIGITS + 1);

// How many nodes of a drawing are picked.
pub fn count_picks(d: &Drawing) -> usize
    ensures { result ≡ pick_count (view d.now) }
{
    d.nodes().iter().filter(|v| v.pick == 1).count()
}

// Asks the query, with slices of its own beside that of the rows: 16,384 work words, and room for every instruction.
pub fn ask(rows: &mut [u32], feed: &[u32], d: Drawing) -> Result<usize, Refusal>
    requires { rows.old ≡ own_slices.out }
    ensures { Asked feed.now (view d) rows.new result }
{
    let mut list = [0u32; LIST_WORDS];
    let mut work = [0u32; SHEET_WORK];
    let mut s = [0u32; SHEET_WORK / 2];
    let mut t = [0u32; SHEET_WORK / 2];
    let mut ends = [0usize; ENDS];
    query_built(
        &mut list, &mut work, rows, &mut s, &mut t, &mut ends, feed, d,
    )
}

// Prints what a feed and a drawing answer: the rows, or the refusal.
fn print_answer(out: &mut [u8], names: &Names, feed: &[u32], d: Drawing) -> usize
    requires { length (names_of names.now) ≡ length (view d).nodes }
    ensures { listed result out.new ≡ listed_in (query_text (names_of names.now) feed.now (view d)) out.old }
{
    let mut rows = [0u32; SHEET_ROWS];
    match ask(&mut rows, feed, d) {
        Ok(n) => {
            let picked = picked_names(names, d.nodes());
            let picks = count_picks(&d);
            write_listing(out, &picked, &rows[0..n], picks)
        }
        Err(refusal) => write_refusal(out, Err(refusal)),
    }
}

// The listing of a sheet, and its length: what the sheet answers, or the line of its first breach.
pub fn sheet_query(sheet: &[u8], listing: &mut [u8]) -> usize
    ensures { listed result listing.new ≡ sheet_query sheet.now listing.old }
{
    let mut feed = [0u32; FEED_WORDS];
    match read_sheet(&mut feed, sheet) {
        Ok(read) => print_answer(listing, &read.nodes, &feed[0..read.feed], read.drawing),
        Err(refusal) => write_refusal(listing, Err(refusal)),
    }
}
