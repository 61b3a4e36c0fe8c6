// Cases of the sheet, as files that the arguments name: the belt cases of document 01, every refusal that a sheet can give, and every
// breach of its form. Prints each name, then the listing. At the end the first sheet again, with slices of several lengths.

#![tactic(auto)]

ghost use Rattle.std.specs.Prelude.{◌≤◌, length};
ghost use Rattle.std.specs.Counts.{IsPrefixLen};

use matcher::matcher_sheet_query;
use sheet::{DECIDING_BYTES, LONGEST_LISTING};
use std::env::{Env, FillError};
use std::io::{Read, Write};
use std::rt::Files;
use std::{fs, io};

// The bytes of the longest path.
const PATH: usize = 4096;

// Reads the file of this name, until it ends, the slice is full or a read fails: how many bytes.
// 0 and no `Err` where it cannot be opened: a sheet that is not there is listed as an empty one. `match_sheet` gives up at a failed read; this goes on.
fn read_file(rt: &impl Files, to: &mut [u8], name: &[u8]) -> usize
    ensures { IsPrefixLen result to.new }
{
    let Ok(path) = str::from_utf8(name) else {
        return 0;
    };
    let Ok(mut file) = fs::open(rt, path) else {
        return 0;
    };
    let mut n = 0;
    while n < to.len() {
        let Ok(more) = file.read(&mut to[n..]) else {
            return n;
        };
        if more == 0 {
            return n;
        }
        n += more;
    }
    n
}

// Prints the name of a sheet, then its listing.
fn show(rt: &(impl Files + Print), name: &[u8]) -> io::Result<()> {
    let mut sheet = [0u8; DECIDING_BYTES];
    let n = read_file(rt, &mut sheet, name);
    let mut listing = [0u8; LONGEST_LISTING];
    let m = matcher_sheet_query(&sheet[0..n], &mut listing);
    io::writer(rt).write_all(name)?;
    println!(rt; ":")?;
    io::writer(rt).write_all(&listing[0..m])
}

// Puts argument i into the slice: its length, 0 where it is missing or too long, as then the sheet is an empty one.
fn argument(rt: &impl Env, i: usize, name: &mut [u8]) -> usize
    ensures { result ≤ length name.new }
{
    rt.arg(i, name).unwrap_or(0)
}

// Shows the sheet that argument i names.
fn show_argument(rt: &(impl Env + Files + Print), i: usize) -> io::Result<()> {
    let mut name = [0u8; PATH];
    let n = argument(rt, i, &mut name);
    show(rt, &name[..n])
}

// Prints a space and a byte as a number.
fn print(rt: &impl Print, byte: u8) -> io::Result<()> {
    print!(rt; " {byte}")
}

// Prints each byte as a number.
fn print_bytes(rt: &impl Print, bytes: &[u8]) -> io::Result<()> {
    for byte in bytes {
        print(rt, *byte)?;
    }
    Ok(())
}

// Lists the first sheet into a slice: prints the lengths of the slice and of the listing, then every byte of the slice.
fn lend(rt: &(impl Env + Files + Print), out: &mut [u8]) -> io::Result<()> {
    let mut name = [0u8; PATH];
    let k = argument(rt, 1, &mut name);
    let mut sheet = [0u8; DECIDING_BYTES];
    let n = read_file(rt, &mut sheet, &name[..k]);
    let m = matcher_sheet_query(&sheet[0..n], out);
    let lent = out.len();
    print!(rt; "{lent} bytes, {m}:")?;
    print_bytes(rt, out)?;
    println!(rt; "")
}

// Shows every sheet.
fn show_all(rt: &(impl Env + Files + Print)) -> io::Result<()> {
    for i in 1..usize::MAX {
        if let Err(FillError::NotPresent) = rt.arg(i, &mut [0u8; 0]) {
            break;
        }
        show_argument(rt, i)?;
    }
    Ok(())
}

fn main(rt: HostRuntime) -> io::Result<()> {
    show_all(&rt)?;
    let mut short = [7u8; 11];
    lend(&rt, &mut short)?;
    let mut exact = [7u8; 12];
    lend(&rt, &mut exact)?;
    let mut long = [7u8; 14];
    lend(&rt, &mut long)
}
