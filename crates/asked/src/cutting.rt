// `cutback T C ..`
ghost use Rattle.std.specs.Prelude.{◌≡◌};
ghost use Rattle.asked.specs.Asked.{revised_asked};
ghost use Rattle.asked.specs.Typed.{typed_at};

use crate::numbers::{Numbers, all_numbers, limit, other_count, two_bytes};
use rules::Tranches;
use std::array;
use text::{ANSWER, Cursor, wrong};

#[derive(Clone, Copy)]
pub struct Revised {
    pub targets: [Tranches; 8],
    pub caps: [Tranches; 8],
}

// Two numbers a product: revised target, revised cap. Those that were not given are 0, as the arrays were made.
pub fn revised_of(numbers: [u32; 40]) -> Revised
    ensures { result ≡ revised_asked numbers }
{
    let targets = array::from_fn(|i| Tranches(two_bytes(numbers[i * 2])));
    let caps = array::from_fn(|i| Tranches(two_bytes(numbers[i * 2 + 1])));
    Revised { targets, caps }
}

// The pairs up to the end of a line, 8 at most.
pub fn pairs(line: &[u8], c: Cursor, numbers: &mut [u32; 40], out: &mut [u8; ANSWER]) -> Numbers
    ensures { numbers.new ≡ (typed_at line.now c 16 numbers.old).numbers }
{
    match all_numbers(line, c, 16, numbers, out) {
        Numbers::Found(n) if n % 2 == 0 => Numbers::Found(n / 2),
        Numbers::Found(_) => Numbers::Said(wrong(
            out,
            b"a product has a revised target and a revised cap; a number is missing",
            line.len(),
        )),
        said => said,
    }
}

// The pairs are those of more or fewer products than the auction has.
pub fn other_pairs(line: &[u8], c: Cursor, products: usize, out: &mut [u8; ANSWER]) -> usize {
    other_count(
        line,
        c,
        limit(products) as usize * 2,
        b"a cutback in this auction has two numbers for each of ",
        products,
        out,
    )
}
