// The matcher's calls for C and Rust, each with its clauses: a slice is a pointer, then a length.
// A crate is a library or an archive, not both: crates call `matcher`, and C calls these.

#![tactic(auto)]

ghost use Rattle.std.specs.Prelude.{◌≡◌};
ghost use Rattle.feed.specs.Feed.{check_feed};
ghost use Rattle.drawing.specs.Drawing.{check_drawing};
ghost use Rattle.algebra.specs.Run.{run};
ghost use Rattle.translator.specs.Translation.{translate};
ghost use Rattle.query_answer.specs.Query.{query};
ghost use Rattle.query_answer.specs.Answers.{slices};
ghost use Rattle.answers.specs.Verdict.{Says};
ghost use Rattle.sheet_listing.specs.Listing.{listed};
ghost use Rattle.sheet.specs.SheetQuery.{sheet_query};
ghost use Rattle.sheet_pages.specs.SheetPages.{sheet_pages};
ghost use Rattle.matcher.specs.Calls.{Translates, Answers, GivesPages};

// Checks a feed: 1 to 4.
#[unsafe(no_mangle)]
pub extern "C" fn matcher_check_feed(feed: &[u32], place: &mut u32) -> u32
    ensures { Says (check_feed feed.now) result place.new }
{
    matcher::matcher_check_feed(feed, place)
}

// Checks a feed, then a drawing: 1 to 7.
#[unsafe(no_mangle)]
pub extern "C" fn matcher_check_drawing(feed: &[u32], drawing: &[u32], place: &mut u32) -> u32
    ensures { Says (check_drawing feed.now drawing.now) result place.new }
{
    matcher::matcher_check_drawing(feed, drawing, place)
}

// Checks a feed and an instruction list, then runs the list: 1 to 4 and 8 to 11.
#[unsafe(no_mangle)]
pub extern "C" fn matcher_run(feed: &[u32], list: &[u32], work: &mut [u32], place: &mut u32) -> u32
    ensures says { Says (run feed.now list.now work.old).verdict result place.new }
    ensures words { work.new ≡ (run feed.now list.now work.old).work }
{
    matcher::matcher_run(feed, list, work, place)
}

// Checks a feed and a drawing, then translates the drawing: 1 to 7 and 13.
#[unsafe(no_mangle)]
pub extern "C" fn matcher_translate(
    feed: &[u32],
    drawing: &[u32],
    list: &mut [u32],
    place: &mut u32,
    instructions: &mut usize,
) -> u32
    ensures { Translates (translate feed.now drawing.now list.old) result place.new list.new instructions.new }
{
    matcher::matcher_translate(feed, drawing, list, place, instructions)
}

// Checks a feed and a drawing, translates the drawing, runs the translation and gives the rows: 1 to 7 and 10 to 13.
#[unsafe(no_mangle)]
pub extern "C" fn matcher_query(
    feed: &[u32],
    drawing: &[u32],
    list: &mut [u32],
    work: &mut [u32],
    rows: &mut [u32],
    place: &mut u32,
    extent: &mut usize,
) -> u32
    ensures { Answers (query feed.now drawing.now (slices list.old work.old rows.old)) result place.new
        list.new work.new rows.new extent.new }
{
    matcher::matcher_query(feed, drawing, list, work, rows, place, extent)
}

// The listing of a sheet: its length, 0 where it does not fit.
#[unsafe(no_mangle)]
pub extern "C" fn matcher_sheet_query(sheet: &[u8], listing: &mut [u8]) -> usize
    ensures { listed result listing.new ≡ sheet_query sheet.now listing.old }
{
    matcher::matcher_sheet_query(sheet, listing)
}

// The pages of a sheet's rows: 3, 5 to 7, 10 to 12, 14 and 15.
#[unsafe(no_mangle)]
pub extern "C" fn matcher_sheet_pages(
    sheet: &[u8],
    pages: &mut [u8],
    place: &mut u32,
    length: &mut usize,
) -> u32
    ensures { GivesPages (sheet_pages sheet.now pages.old) result place.new pages.new length.new }
{
    matcher::matcher_sheet_pages(sheet, pages, place, length)
}
