// The matcher's calls. The crate matcher_c offers them to C and Rust.

#![tactic(auto)]

ghost use Rattle.std.specs.Prelude.{◌≡◌};
ghost use Rattle.feed.specs.Feed.{check_feed};
ghost use Rattle.drawing.specs.Drawing.{check_drawing};
ghost use Rattle.algebra.specs.Run.{run};
ghost use Rattle.translator.specs.Translation.{translate};
ghost use Rattle.query_answer.specs.Query.{query};
ghost use Rattle.query_answer.specs.Answers.{slices};
ghost use Rattle.answers.specs.Verdict.{Says};
ghost use Rattle.sheet_listing.specs.Listing.{listed};
ghost use Rattle.sheet.specs.SheetQuery.{sheet_query};
ghost use Rattle.sheet_pages.specs.SheetPages.{sheet_pages};
ghost use Rattle.matcher.specs.Calls.{Translates, Answers, GivesPages};

use answers::say;

// Checks a feed: 1 to 4.
pub fn matcher_check_feed(feed: &[u32], place: &mut u32) -> u32
    ensures { Says (check_feed feed.now) result place.new }
{
    say(feed::check_feed(feed), place)
}

// Checks a feed, then a drawing: 1 to 7.
pub fn matcher_check_drawing(feed: &[u32], drawing: &[u32], place: &mut u32) -> u32
    ensures { Says (check_drawing feed.now drawing.now) result place.new }
{
    say(drawing_check::check_drawing(feed, drawing), place)
}

// Checks a feed and an instruction list, then runs the list: 1 to 4 and 8 to 11.
pub fn matcher_run(feed: &[u32], list: &[u32], work: &mut [u32], place: &mut u32) -> u32
    ensures says { Says (run feed.now list.now work.old).verdict result place.new }
    ensures words { work.new ≡ (run feed.now list.now work.old).work }
{
    say(run::run(feed, list, work), place)
}

// Checks a feed and a drawing, then translates the drawing: 1 to 7 and 13.
pub fn matcher_translate(
    feed: &[u32],
    drawing: &[u32],
    list: &mut [u32],
    place: &mut u32,
    instructions: &mut usize,
) -> u32
    ensures { Translates (translate feed.now drawing.now list.old) result place.new list.new instructions.new }
{
    let made = translate::translate(feed, drawing, list);
    *instructions = made.unwrap_or(0) as usize;
    say(made, place)
}

// Checks a feed and a drawing, translates the drawing, runs the translation and gives the rows: 1 to 7 and 10 to 13.
pub fn matcher_query(
    feed: &[u32],
    drawing: &[u32],
    list: &mut [u32],
    work: &mut [u32],
    rows: &mut [u32],
    place: &mut u32,
    extent: &mut usize,
) -> u32
    ensures { Answers (query feed.now drawing.now (slices list.old work.old rows.old)) result place.new
        list.new work.new rows.new extent.new }
{
    let given = query::query_into(feed, drawing, list, work, rows);
    *extent = given.unwrap_or(0);
    say(given, place)
}

// The listing of a sheet: its length, 0 where it does not fit.
pub fn matcher_sheet_query(sheet: &[u8], listing: &mut [u8]) -> usize
    ensures { listed result listing.new ≡ sheet_query sheet.now listing.old }
{
    sheet::sheet_query(sheet, listing)
}

// The pages of a sheet's rows: 3, 5 to 7, 10 to 12, 14 and 15.
pub fn matcher_sheet_pages(
    sheet: &[u8],
    pages: &mut [u8],
    place: &mut u32,
    length: &mut usize,
) -> u32
    ensures { GivesPages (sheet_pages sheet.now pages.old) result place.new pages.new length.new }
{
    let given = sheet_pages::sheet_pages(sheet, pages);
    *length = given.unwrap_or(0);
    say(given, place)
}
