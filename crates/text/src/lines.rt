// Lines as people have them: one ends at `\n` or at `\r`, and one that ends in a backslash goes on in the next. A remark, whose first byte
// above 32 is `#`, does not go on.
ghost use Rattle.std.specs.Prelude.{◌≡◌, ℕ, ◌<◌, ◌≤◌, true, false, length, slice_index};
ghost use Rattle.text.specs.Lines.{is_end, held, ends_line, remark, line_end, joined_byte, joined, control};

use crate::{Run, run_end};

fn is_end(b: u8) -> bool
    ensures { result ≡ is_end b }
{
    (b == b'\n') | (b == b'\r')
}

// Whether a line end does not end the line, after the two bytes before it.
fn is_held(second: u8, first: u8, b: u8) -> bool
    ensures { result ≡ held second first b }
{
    (first == b'\\') | ((second == b'\\') & ((first == b'\r') & (b == b'\n')))
}

fn ends_line(remark: bool, second: u8, first: u8, b: u8) -> bool
    ensures { result ≡ ends_line remark second first b }
{
    is_end(b) & (remark | !is_held(second, first, b))
}

// A byte, and 0 past the end.
fn byte_at(w: &[u8], i: usize) -> u8
    ensures { result ≡ slice_index w.now i }
{
    w.get(i).copied().unwrap_or(0)
}

fn is_remark(w: &[u8]) -> bool
    ensures { result ≡ remark w.now }
{
    byte_at(w, run_end(w, Run::Spaces, 0)) == b'#'
}

// The place of the first line's end, or the length where there is none.
pub fn line_end(w: &[u8]) -> usize
    ensures { (result ≡ line_end w.now) × (result ≤ length w.now) }
{
    let remark = is_remark(w);
    let mut second = 0;
    let mut first = 0;
    for (i, b) in w.iter().enumerate() {
        if ends_line(remark, second, first, *b) {
            return i;
        }
        second = first;
        first = *b;
    }
    w.len()
}

fn joined_byte(second: u8, first: u8, b: u8, next: u8) -> u8
    ensures { result ≡ joined_byte second first b next }
{
    if (is_end(b) & is_held(second, first, b)) | ((b == b'\\') & is_end(next)) {
        return b' ';
    }
    b
}

// Makes spaces of each backslash and the line end right after it.
pub fn join(w: &mut [u8])
    ensures { w.new ≡ joined w.old }
{
    let mut second = 0;
    let mut first = 0;
    for i in 0..w.len() {
        let b = w[i];
        let next = byte_at(w, i + 1);
        w[i] = joined_byte(second, first, b, next);
        second = first;
        first = b;
    }
}

fn is_control(b: u8) -> bool
    ensures { result ≡ control b }
{
    ((b < 32) & (b != b'\t')) | (b == 127)
}

// The place of the first control character but a tab, or the length where there is none.
pub fn control_at(line: &[u8]) -> usize
    ensures within { result ≤ length line.now }
    ensures before { (k : ℕ) → k < result → control (slice_index line.now k) ≡ false }
    ensures found { result < length line.now → control (slice_index line.now result) ≡ true }
{
    line.iter()
        .position(|b| is_control(*b))
        .unwrap_or(line.len())
}
