// The sheet's rows as pages: a sheet's bytes in, the pages' bytes out.

#![tactic(auto)]

ghost use Rattle.std.specs.Prelude.{◌≡◌, length};
ghost use Rattle.answers.specs.Verdict.{refused, ◌then◌};
ghost use Rattle.answers.specs.Answers.{refusal_of};
ghost use Rattle.drawing.specs.Drawing.{drawing_words, check_drawing};
ghost use Rattle.drawing.specs.Builder.{view};
ghost use Rattle.sheet_text.specs.inner.Parts.{names_of};
ghost use Rattle.sheet_writer.specs.Parts.{parts_of};
ghost use Rattle.sheet_layout.specs.Pages.{pages};
ghost use Rattle.sheet_layout.specs.inner.Pageable.{Pageable};
ghost use Rattle.sheet_pages.specs.SheetPages.{sheet_pages};
ghost use Rattle.sheet_pages.specs.Answers.{Gives};
ghost use Rattle.sheet_pages.specs.inner.Ending.{in_buffer, answer_pages, refused_pages, Narrow};

use answers::Refusal;
use drawing::Drawing;
use drawing_check::check_built;
use limits::{COLUMNS, LINE_WIDTH, PAGE_ROWS, SHEET_ROWS};
use sheet::{ask, count_picks};
use sheet_layout::put_pages;
use sheet_reader::{FEED_WORDS, read_sheet};
use sheet_text::Names;
use sheet_writer::{clear, fits, picked_names};

// No pages are longer: a sheet query gives 4,096 row words.
pub const LONGEST_PAGES: usize = (LINE_WIDTH + 1)
    * (2 * (1 + (SHEET_ROWS - 1) / PAGE_ROWS) + SHEET_ROWS);

// A refusal: 12 zeroes the buffer, any other leaves it as it is.
fn refuse(out: &mut [u8], refusal: Refusal) -> Result<usize, Refusal>
    ensures { Gives (refused_pages (refusal_of refusal) out.old) out.new result }
{
    if let Refusal::TooMany = refusal {
        clear(out);
        return Err(refusal);
    }
    Err(refusal)
}

// What a drawing with too many picks answers: what its check refuses, else 15.
fn too_wide(feed: &[u32], d: Drawing) -> Refusal
    ensures { refusal_of result ≡ check_drawing feed.now (drawing_words (view d)) then refused 15 0 }
{
    match check_built(feed, d) {
        Ok(()) => Refusal::TooWide,
        Err(refusal) => refusal,
    }
}

// Writes the pages of some rows, so many words to a row; 12, with the buffer zeroed, where they do not fit.
fn write_pages(out: &mut [u8], names: &Names, rows: &[u32], picks: usize) -> Result<usize, Refusal>
    requires { Pageable rows.now picks }
    ensures { Gives (in_buffer (pages (names_of names.now) (parts_of picks rows.now)) out.old) out.new result }
{
    let end = put_pages(out, names, rows, picks);
    if fits(out, end) {
        return Ok(end);
    }
    Err(Refusal::TooMany)
}

// The pages of a drawing with no more picks than columns.
fn page_rows(
    out: &mut [u8],
    names: &Names,
    feed: &[u32],
    d: Drawing,
    picks: usize,
) -> Result<usize, Refusal>
    requires { Narrow names.now d picks }
    ensures { Gives (answer_pages (names_of names.now) feed.now (view d) out.old) out.new result }
{
    let mut rows = [0u32; SHEET_ROWS];
    match ask(&mut rows, feed, d) {
        Ok(n) => {
            let picked = picked_names(names, d.nodes());
            write_pages(out, &picked, &rows[0..n], picks)
        }
        Err(refusal) => refuse(out, refusal),
    }
}

// The pages of what a feed and a drawing answer, or the refusal.
fn page_answer(out: &mut [u8], names: &Names, feed: &[u32], d: Drawing) -> Result<usize, Refusal>
    requires { length (names_of names.now) ≡ length (view d).nodes }
    ensures { Gives (answer_pages (names_of names.now) feed.now (view d) out.old) out.new result }
{
    let picks = count_picks(&d);
    if picks > COLUMNS {
        let refusal = too_wide(feed, d);
        return refuse(out, refusal);
    }
    page_rows(out, names, feed, d, picks)
}

// The pages of a sheet, and their length: what the sheet answers, or the line of its first breach.
pub fn sheet_pages(sheet: &[u8], pages: &mut [u8]) -> Result<usize, Refusal>
    ensures { Gives (sheet_pages sheet.now pages.old) pages.new result }
{
    let mut feed = [0u32; FEED_WORDS];
    match read_sheet(&mut feed, sheet) {
        Ok(read) => page_answer(pages, &read.nodes, &feed[0..read.feed], read.drawing),
        Err(refusal) => refuse(pages, refusal),
    }
}
