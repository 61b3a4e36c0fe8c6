// The sheet program: reads a sheet from standard input and prints its listing, or its pages where the first argument is `--pages`. Where the input
// cannot be read it prints nothing; that, or a text that could not be written whole, it says on standard error.

#![tactic(auto)]

ghost use Rattle.std.specs.Prelude.{◌≤◌, IfOk, length, take};
ghost use Rattle.sheet.specs.SheetQuery.{sheet_listing};
ghost use Rattle.sheet_pages.specs.SheetPages.{printed_pages};
ghost use Rattle.match_sheet.specs.Program.{Room, Prints, printed};

use sheet::{DECIDING_BYTES, sheet_query};
use sheet_listing::write_refusal;
use sheet_pages::{LONGEST_PAGES, sheet_pages};
use std::env::Env;
use std::io;
use std::io::{Read, Write};

// Reads until the input ends or the slice is full: how many bytes. It goes on by as many as a read gives.
// `sheet_cases` has such a loop, which keeps what came before a failed read; a function for both would need a crate of its own, as no library reads files.
fn read_input(from: &mut impl Read, to: &mut [u8]) -> io::Result<usize>
    ensures { IfOk result (λ n. n ≤ length to.new) }
{
    let mut n = 0;
    while n < to.len() {
        let more = from.read(&mut to[n..])?;
        if more == 0 {
            break;
        }
        n += more;
    }
    Ok(n)
}

// The listing of an input of which n bytes were read, and its length.
fn list(out: &mut [u8], input: &[u8], n: usize) -> usize
    requires { Room out.old input.now n }
    ensures { Prints sheet_listing (length input.now) (take n input.now) out.new result }
{
    sheet_query(&input[0..n], out)
}

// The pages of such an input, or the line of its refusal.
fn page(out: &mut [u8], input: &[u8], n: usize) -> usize
    requires { Room out.old input.now n }
    ensures { Prints printed_pages (length input.now) (take n input.now) out.new result }
{
    match sheet_pages(&input[0..n], out) {
        Ok(length) => length,
        Err(refusal) => write_refusal(out, Err(refusal)),
    }
}

// The one or the other.
#[tactic(auto, unfolding(crate::specs::Program::printed))]
fn text(out: &mut [u8], input: &[u8], n: usize, pages: bool) -> usize
    requires { Room out.old input.now n }
    ensures { Prints (printed pages) (length input.now) (take n input.now) out.new result }
{
    if pages {
        return page(out, input, n);
    }
    list(out, input, n)
}

// Whether the first argument asks for pages.
fn wants_pages(rt: &impl Env) -> bool {
    let option = b"--pages";
    let mut first = [0u8; 7];
    match rt.arg(1, &mut first) {
        Ok(n) => &first[..n] == option.as_slice(),
        Err(_) => false,
    }
}

fn main(rt: HostRuntime) -> io::Result<()> {
    let mut input = [0u8; DECIDING_BYTES];
    match read_input(&mut rt.stdin(), &mut input) {
        Err(_) => eprintln!(rt; "match_sheet: cannot read standard input"),
        Ok(n) => {
            let mut out = [0u8; LONGEST_PAGES];
            let m = text(&mut out, &input, n, wants_pages(&rt));
            match rt.stdout().write_all(&out[0..m]) {
                Ok(()) => Ok(()),
                Err(_) => eprintln!(rt; "match_sheet: cannot write standard output"),
            }
        }
    }
}
