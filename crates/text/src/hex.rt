// Bytes as hexadecimal digits of either case, two a byte.
ghost use Rattle.std.specs.Prelude.{◌≡◌, ◌*◌, ◌≤◌, ◌++◌, length, drop};
ghost use Rattle.text.specs.Nibble.{nibble_of};
ghost use Rattle.text.specs.Hex.{hex_up_to, hex_at};

use crate::{Cursor, Run, run_end, word};

// What is found at a cursor.
#[derive(Clone, Copy)]
pub enum Hex {
    // So many bytes, and the place after the word.
    Bytes(usize, Cursor),
    // The first place of a word with an odd number of digits, or with digits for more than 1,024 bytes.
    Uneven(usize),
    Long(usize),
    // The place of the first byte that is no digit.
    Strange(usize),
    End,
}

// The value of a digit, and 16 for any other byte.
#[tactic(auto, using(std::proofs::lemmas::Bool::Decides::nat_tests), unfolding(crate::specs::Nibble::nibble_of))]
pub fn nibble(b: u8) -> u8
    ensures { (result ≡ nibble_of b) × (result ≤ 16) }
{
    match b {
        b'0'..=b'9' => b - 48,
        b'A'..=b'F' => b - 55,
        b'a'..=b'f' => b - 87,
        _ => 16,
    }
}

// Puts the first n bytes that the digits of w make at the start of out.
fn put_bytes(w: &[u8], n: usize, out: &mut [u8])
    requires { (n * 2 ≤ length w.now) × (n ≤ length out.old) }
    ensures { out.new ≡ hex_up_to w.now n ++ drop n out.old }
{
    for i in 0..n {
        // What is no digit counts as 0, so that nothing is asked of w.
        let high = nibble(w[i * 2]) % 16;
        let low = nibble(w[i * 2 + 1]) % 16;
        out[i] = high * 16 + low;
    }
}

// The next word as bytes at the start of out; where it is none, out is as it was.
pub fn take_hex(s: &[u8], c: Cursor, out: &mut [u8; 1024]) -> Hex
    ensures { (result ≡ (hex_at s.now c.at out.old).answer) × (out.new ≡ (hex_at s.now c.at out.old).bytes) }
{
    let p = word(s, c);
    let a = p.from;
    let e = p.to;
    if a == e {
        return Hex::End;
    }
    let stop = run_end(s, Run::Digits, a);
    if stop < e {
        return Hex::Strange(stop);
    }
    let n = (e - a) / 2;
    if n * 2 < e - a {
        return Hex::Uneven(a);
    }
    if 1024 < n {
        return Hex::Long(a);
    }
    put_bytes(&s[a..e], n, out);
    Hex::Bytes(n, Cursor { at: e })
}
