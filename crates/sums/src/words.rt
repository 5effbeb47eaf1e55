// The functions and constants of FIPS 180-4, sections 4.1.2 and 4.2.2, on words of 32 bits.
ghost use Rattle.std.specs.Prelude.{◌≡◌, ◌<◌, slice_index};
ghost use Rattle.sums.specs.Words.{plus, rotr, Turn, ch, maj, big_sigma, small_sigma, big_sigma0, big_sigma1, small_sigma0, small_sigma1, constants};

const K: [u32; 64] = [
    0x428a2f98, 0x71374491, 0xb5c0fbcf, 0xe9b5dba5, 0x3956c25b, 0x59f111f1, 0x923f82a4, 0xab1c5ed5,
    0xd807aa98, 0x12835b01, 0x243185be, 0x550c7dc3, 0x72be5d74, 0x80deb1fe, 0x9bdc06a7, 0xc19bf174,
    0xe49b69c1, 0xefbe4786, 0x0fc19dc6, 0x240ca1cc, 0x2de92c6f, 0x4a7484aa, 0x5cb0a9dc, 0x76f988da,
    0x983e5152, 0xa831c66d, 0xb00327c8, 0xbf597fc7, 0xc6e00bf3, 0xd5a79147, 0x06ca6351, 0x14292967,
    0x27b70a85, 0x2e1b2138, 0x4d2c6dfc, 0x53380d13, 0x650a7354, 0x766a0abb, 0x81c2c92e, 0x92722c85,
    0xa2bfe8a1, 0xa81a664b, 0xc24b8b70, 0xc76c51a3, 0xd192e819, 0xd6990624, 0xf40e3585, 0x106aa070,
    0x19a4c116, 0x1e376c08, 0x2748774c, 0x34b0bcb5, 0x391c0cb3, 0x4ed8aa4a, 0x5b9cca4f, 0x682e6ff3,
    0x748f82ee, 0x78a5636f, 0x84c87814, 0x8cc70208, 0x90befffa, 0xa4506ceb, 0xbef9a3f7, 0xc67178f2,
];

pub fn constant(t: usize) -> u32
    requires { t < 64 }
    ensures { result ≡ slice_index constants t }
{
    K[t]
}

pub fn plus(x: u32, y: u32) -> u32
    ensures { result ≡ plus x y }
{
    x.wrapping_add(y)
}

pub fn rotr(x: u32, n: u32) -> u32
    requires { Turn n }
    ensures { result ≡ rotr x n }
{
    x.rotate_right(n)
}

pub fn ch(x: u32, y: u32, z: u32) -> u32
    ensures { result ≡ ch x y z }
{
    (x & y) ^ (!x & z)
}

pub fn maj(x: u32, y: u32, z: u32) -> u32
    ensures { result ≡ maj x y z }
{
    (x & y) ^ (x & z) ^ (y & z)
}

fn big_sigma(a: u32, b: u32, c: u32, x: u32) -> u32
    requires { Turn a × (Turn b × Turn c) }
    ensures { result ≡ big_sigma a b c x }
{
    rotr(x, a) ^ rotr(x, b) ^ rotr(x, c)
}

fn small_sigma(a: u32, b: u32, c: u32, x: u32) -> u32
    requires { Turn a × (Turn b × Turn c) }
    ensures { result ≡ small_sigma a b c x }
{
    rotr(x, a) ^ rotr(x, b) ^ (x >> c)
}

pub fn big_sigma0(x: u32) -> u32
    ensures { result ≡ big_sigma0 x }
{
    big_sigma(2, 13, 22, x)
}

pub fn big_sigma1(x: u32) -> u32
    ensures { result ≡ big_sigma1 x }
{
    big_sigma(6, 11, 25, x)
}

pub fn small_sigma0(x: u32) -> u32
    ensures { result ≡ small_sigma0 x }
{
    small_sigma(7, 18, 3, x)
}

pub fn small_sigma1(x: u32) -> u32
    ensures { result ≡ small_sigma1 x }
{
    small_sigma(17, 19, 10, x)
}
