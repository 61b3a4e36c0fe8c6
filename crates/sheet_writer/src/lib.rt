// Text into a lent slice of bytes. A function that writes takes the place where its text starts, and returns the place after it. Bytes past the end
// of the slice are left out, and from there on the place stays past the end. What a listing and a page both need stands here.
// The slice and the place go side by side: a struct that holds the `&mut` would have to say in each clause that it still holds the same slice.

#![tactic(auto)]

ghost use Rattle.std.specs.Prelude.{◌≡◌, ℕ, ◌≤◌, List, [], ◌∷◌, length, replicate};
ghost use mathlib.Core.List.{flat_map};
ghost use Rattle.sheet_text.specs.Text.{digits};
ghost use Rattle.sheet_text.specs.inner.Parts.{names_of};
ghost use Rattle.sheet_writer.specs.Parts.{parts_of};
ghost use Rattle.sheet_writer.specs.Picked.{picked_names};
ghost use Rattle.sheet_writer.specs.inner.Written.{Put, Fits, Puts};

use drawing::Node;
use sheet_text::Names;

// One byte.
pub fn put_byte(out: &mut [u8], at: usize, b: u8) -> usize
    ensures { Put out.old out.new at (b ∷ []) result }
{
    if at < out.len() {
        out[at] = b;
        return at + 1;
    }
    out.len() + 1
}

// A text.
pub fn put_text(out: &mut [u8], at: usize, text: &[u8]) -> usize
    ensures { Put out.old out.new at text.now result }
{
    let mut k = at;
    for b in text {
        k = put_byte(out, k, *b);
    }
    k
}

// The decimal digits of a number.
// It calls itself, as the last digit is known first; `write!` would fail where this leaves bytes out.
pub fn put_number(out: &mut [u8], at: usize, n: u32) -> usize
    ensures { Put out.old out.new at (digits n) result }
{
    if n < 10 {
        return put_byte(out, at, b'0' + n as u8);
    }
    let k = put_number(out, at, n / 10);
    put_byte(out, k, b'0' + (n % 10) as u8)
}

// How many digits a number has. Each turn takes one off: the number says how many turns there are.
fn digit_count(n: u32) -> usize
    ensures { result ≡ length (digits n) }
{
    let mut m = n;
    let mut c = 1;
    while m >= 10 {
        m = m / 10;
        c += 1;
    }
    c
}

// ---- what stands in a field of a line: a name or a number

pub trait Field: Copy {
    ghost text: { Self → List ℕ };

    // Writes its text.
    fn put(self, out: &mut [u8], at: usize) -> usize
        ensures { Put out.old out.new at (text self) result };

    // How many bytes its text has.
    fn width(self) -> usize
        ensures { result ≡ length (text self) };
}

impl<'a> Field for &'a [u8] {
    ghost text = { λ name. name.now };

    fn put(self, out: &mut [u8], at: usize) -> usize {
        put_text(out, at, self)
    }

    fn width(self) -> usize {
        self.len()
    }
}

impl Field for u32 {
    ghost text = { digits };

    fn put(self, out: &mut [u8], at: usize) -> usize {
        put_number(out, at, self)
    }

    fn width(self) -> usize {
        digit_count(self)
    }
}

// ---- rows, and the names of the picked nodes

// The text of each row, one behind the other, so many words to a row. `put_row` writes that of one.
pub fn put_rows<F: Fn(&mut [u8], usize, &[u32]) -> usize>(
    out: &mut [u8],
    at: usize,
    rows: &[u32],
    picks: usize,
    put_row: F,
) -> usize
    ghost text: { List ℕ → List ℕ }
    requires some { 1 ≤ picks }
    requires callable { F.IsAlwaysCallable put_row }
    requires puts { Puts (F.post put_row) text }
    ensures { Put out.old out.new at (flat_map text (parts_of picks rows.now)) result }
{
    let mut k = at;
    for row in rows.chunks(picks) {
        k = put_row(out, k, row);
    }
    k
}

// The names of the picked nodes, in node order.
pub fn picked_names<'a>(names: &Names<'a>, nodes: &[Node]) -> Names<'a>
    requires { length (names_of names.now) ≡ length nodes.now }
    ensures { names_of result ≡ picked_names (names_of names.now) nodes.now }
{
    let texts = names.as_slice();
    let mut picked = Names::none();
    for (i, node) in nodes.iter().enumerate() {
        if node.pick == 1 {
            picked.add(texts[i]);
        }
    }
    picked
}

// Zeros throughout.
pub fn clear(out: &mut [u8])
    ensures { out.new ≡ replicate (length out.old) 0 }
{
    out.fill(0);
}

// Whether the text that ends before `at` fits; where it does not, the slice is zeroed.
// A `bool`: a `Result` would have nothing to hand over, and `Fits` says of both answers what they leave.
pub fn fits(out: &mut [u8], at: usize) -> bool
    ensures { Fits out.old out.new at result }
{
    if at <= out.len() {
        return true;
    }
    clear(out);
    false
}
