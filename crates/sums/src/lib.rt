// SHA-256 of FIPS 180-4 over bytes, as many at a time as are at hand.
#![tactic(auto)]

mod block;
mod words;

ghost use Rattle.std.specs.Prelude.{◌≡◌, ℕ, ◌<◌, List, [], ◌++◌};
ghost use Rattle.sums.specs.Sum.{Holds, padded, sha256_digits, after_byte, length_up_to, hex_of, digits_up_to};

// A sum begun: the hash value after the whole blocks so far, the bytes of the next one, and how many bytes there were in all,
// modulo 2^64.
#[derive(Clone, Copy)]
pub struct Sum {
    words: [u32; 8],
    block: [u8; 64],
    count: u64,
}

// Section 5.3.3: no byte so far.
pub fn begun() -> Sum
    ensures { Holds result [] }
{
    Sum {
        words: [
            0x6a09e667, 0xbb67ae85, 0x3c6ef372, 0xa54ff53a, 0x510e527f, 0x9b05688c, 0x1f83d9ab,
            0x5be0cd19,
        ],
        block: [0u8; 64],
        count: 0,
    }
}

// The hash value once the byte at this place of the block is there: the last one makes the block whole.
fn after_byte(words: [u32; 8], block: &[u8; 64], at: usize) -> [u32; 8]
    ensures { result ≡ after_byte words block.now at }
{
    if at == 63 {
        block::after_block(words, block)
    } else {
        words
    }
}

// The sum after these bytes too.
pub fn with(sum: Sum, bytes: &[u8]) -> Sum
    ensures { (m : List ℕ) → Holds sum m → Holds result (m ++ bytes.now) }
{
    let mut words = sum.words;
    let mut block = sum.block;
    let mut count = sum.count;
    for byte in bytes {
        let at = (count % 64) as usize;
        block[at] = *byte;
        let next = after_byte(words, &block, at);
        words = next;
        count = count.wrapping_add(1);
    }
    Sum {
        words,
        block,
        count,
    }
}

// The most significant first.
fn length_bytes(bits: u64) -> [u8; 8]
    ensures { result ≡ length_up_to bits 8 }
{
    bits.to_be_bytes()
}

// Section 5.1.1: the bit 1, as few zero bits as make the length 448 modulo 512, and the length in bits before that. 128 is the
// bit 1 with seven of the zeros.
fn padded(sum: Sum) -> Sum
    ensures { (m : List ℕ) → Holds sum m → Holds result (padded m) }
{
    let mut padding = [0u8; 64];
    padding[0] = 128;
    let count = sum.count;
    let n = ((119 - count % 64) % 64) as usize + 1;
    let length = length_bytes(count << 3);
    with(with(sum, &padding[0..n]), &length)
}

fn hex(n: u32) -> u8
    requires { n < 16 }
    ensures { result ≡ hex_of n }
{
    if n < 10 {
        return 48 + n as u8;
    }
    87 + n as u8
}

fn digits_of(words: [u32; 8]) -> [u8; 64]
    ensures { result ≡ digits_up_to words 64 }
{
    let mut out = [0u8; 64];
    for i in 0..64 {
        out[i] = hex((words[i / 8] >> (28 - 4 * (i % 8))) % 16);
    }
    out
}

// The finished sum as hexadecimal digits in lower case.
pub fn digits(sum: Sum) -> [u8; 64]
    ensures { (m : List ℕ) → Holds sum m → result ≡ sha256_digits m }
{
    let words = padded(sum).words;
    digits_of(words)
}

// The sum of bytes that are all at hand, in such digits.
pub fn sum_of(bytes: &[u8]) -> [u8; 64]
    ensures { result ≡ sha256_digits bytes.now }
{
    digits(with(begun(), bytes))
}
