// Pieces of the page, put into a lent array that is written out where it fills. A page that cannot be written is at a place past the
// array's end from there on, where nothing more is put.
use text::{ANSWER, put, put_named, send};

// ---- What is gathered, written out

const LOST: usize = ANSWER + 1;

pub fn lost() -> usize {
    LOST
}

pub fn is_lost(at: usize) -> bool {
    ANSWER < at
}

pub fn flush(rt: &impl Print, out: &[u8; ANSWER], at: usize) -> usize {
    if ANSWER < at {
        return at;
    }
    if send(rt, out, at) {
        return 0;
    }
    LOST
}

// Room for a piece: no piece has more than half of the array.
pub fn room(rt: &impl Print, out: &[u8; ANSWER], at: usize) -> usize {
    if at < 32768 {
        return at;
    }
    flush(rt, out, at)
}

// ---- Pieces with numbers

// Puts a form, with the next number in decimal in place of each `#`.
pub fn fill(out: &mut [u8; ANSWER], at: usize, form: &[u8], numbers: &[u64]) -> usize {
    let mut to = at;
    let mut rest = form;
    for n in numbers {
        let Some(mark) = rest.iter().position(|b| *b == b'#') else {
            break;
        };
        to = put_named(out, to, &rest[..mark], *n);
        rest = &rest[mark + 1..];
    }
    put(out, to, rest)
}

// A form of one number.
pub fn one(out: &mut [u8; ANSWER], at: usize, form: &[u8], n: u64) -> usize {
    let numbers = [n];
    fill(out, at, form, &numbers)
}

// `s` where there is not just one.
pub fn plural(out: &mut [u8; ANSWER], at: usize, n: u64) -> usize {
    if n == 1 {
        return at;
    }
    put(out, at, b"s")
}

// ---- Text from outside

// A byte as HTML has it. Control characters are left out.
pub fn escape(out: &mut [u8; ANSWER], at: usize, b: u8) -> usize {
    match b {
        0..=31 | 127 => at,
        b'&' => put(out, at, b"&amp;"),
        b'<' => put(out, at, b"&lt;"),
        b'>' => put(out, at, b"&gt;"),
        b'"' => put(out, at, b"&quot;"),
        _ => put(out, at, &[b]),
    }
}

// The bytes after the last slash.
pub fn put_file_name(out: &mut [u8; ANSWER], at: usize, path: &[u8]) -> usize {
    let from = path.iter().rposition(|b| *b == b'/').map_or(0, |i| i + 1);
    let mut to = at;
    for b in &path[from..] {
        to = escape(out, to, *b);
    }
    to
}

// ---- Prices

fn digit(n: u32) -> u8 {
    b'0' + (n % 10) as u8
}

// A price as people say it, without its unit: 13.884 cents per kWh, 235.00 dollars per MW-day.
pub fn put_price(out: &mut [u8; ANSWER], at: usize, unit: u8, amount: u32) -> usize {
    if unit == 0 {
        let a = put_named(out, at, b"", (amount / 1000) as u64);
        let digits = [b'.', digit(amount / 100), digit(amount / 10), digit(amount)];
        return put(out, a, &digits);
    }
    let a = put_named(out, at, b"", (amount / 100) as u64);
    let digits = [b'.', digit(amount / 10), digit(amount)];
    put(out, a, &digits)
}

// What is said after such a price, or over a column of them.
pub fn put_unit(out: &mut [u8; ANSWER], at: usize, unit: u8) -> usize {
    if unit == 0 {
        return put(out, at, b"cents per kWh");
    }
    put(out, at, b"$ per MW-day")
}

// The unit that the box counts in.
pub fn put_counted(out: &mut [u8; ANSWER], at: usize, unit: u8) -> usize {
    if unit == 0 {
        return put(out, at, b"thousandths of a cent per kWh");
    }
    put(out, at, b"cents per MW-day")
}

// Basis points as percent.
pub fn put_points(out: &mut [u8; ANSWER], at: usize, points: u16) -> usize {
    put_price(out, at, 1, points as u32)
}
