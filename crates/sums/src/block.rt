// A block of 64 bytes: FIPS 180-4, section 6.2.2.
ghost use Rattle.std.specs.Prelude.{◌≡◌, ◌<◌};
ghost use Rattle.sums.specs.Block.{word_of, scheduled, schedule_up_to, work_of, round_of, rounds_up_to, added, after_block};

use crate::words::{big_sigma0, big_sigma1, ch, constant, maj, plus, small_sigma0, small_sigma1};

// Word t of the block. "Within each word, the most significant bit is stored in the left-most bit position."
fn word_of(block: &[u8; 64], t: usize) -> u32
    requires { t < 16 }
    ensures { result ≡ word_of block.now t }
{
    let at = t * 4;
    u32::from_be_bytes([block[at], block[at + 1], block[at + 2], block[at + 3]])
}

// Word t of the message schedule, of which those before it stand in w.
fn scheduled(block: &[u8; 64], w: &[u32; 64], t: usize) -> u32
    requires { t < 64 }
    ensures { result ≡ scheduled block.now w.now t }
{
    if t < 16 {
        return word_of(block, t);
    }
    plus(
        plus(
            plus(small_sigma1(w[t - 2]), w[t - 7]),
            small_sigma0(w[t - 15]),
        ),
        w[t - 16],
    )
}

fn schedule(block: &[u8; 64]) -> [u32; 64]
    ensures { result ≡ schedule_up_to block.now 64 }
{
    let mut w = [0u32; 64];
    for t in 0..64 {
        w[t] = scheduled(block, &w, t);
    }
    w
}

// The eight working variables.
#[derive(Clone, Copy)]
pub struct Work {
    pub a: u32,
    pub b: u32,
    pub c: u32,
    pub d: u32,
    pub e: u32,
    pub f: u32,
    pub g: u32,
    pub h: u32,
}

fn round(v: Work, k: u32, w: u32) -> Work
    ensures { result ≡ round_of v k w }
{
    let t1 = plus(
        plus(plus(plus(v.h, big_sigma1(v.e)), ch(v.e, v.f, v.g)), k),
        w,
    );
    let t2 = plus(big_sigma0(v.a), maj(v.a, v.b, v.c));
    Work {
        a: plus(t1, t2),
        b: v.a,
        c: v.b,
        d: v.c,
        e: plus(v.d, t1),
        f: v.e,
        g: v.f,
        h: v.g,
    }
}

fn rounds(start: Work, w: &[u32; 64]) -> Work
    ensures { result ≡ rounds_up_to start w.now 64 }
{
    let mut v = start;
    for t in 0..64 {
        v = round(v, constant(t), w[t]);
    }
    v
}

fn work_of(words: [u32; 8]) -> Work
    ensures { result ≡ work_of words }
{
    Work {
        a: words[0],
        b: words[1],
        c: words[2],
        d: words[3],
        e: words[4],
        f: words[5],
        g: words[6],
        h: words[7],
    }
}

fn added(words: [u32; 8], v: Work) -> [u32; 8]
    ensures { result ≡ added words v }
{
    [
        plus(v.a, words[0]),
        plus(v.b, words[1]),
        plus(v.c, words[2]),
        plus(v.d, words[3]),
        plus(v.e, words[4]),
        plus(v.f, words[5]),
        plus(v.g, words[6]),
        plus(v.h, words[7]),
    ]
}

// The hash value after one block more.
pub fn after_block(words: [u32; 8], block: &[u8; 64]) -> [u32; 8]
    ensures { result ≡ after_block words block.now }
{
    let w = schedule(block);
    added(words, rounds(work_of(words), &w))
}
