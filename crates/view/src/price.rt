// A price as people say it.
use text::{ANSWER, put, put_named};

fn digit(n: u32) -> u8 {
    b'0' + (n % 10) as u8
}

// `N.NNN` for thousandths of a cent per kWh, `$N.NN` for cents per MW-day.
pub fn put_figure(out: &mut [u8; ANSWER], at: usize, unit: u8, amount: u32) -> usize {
    if unit == 0 {
        let a = put_named(out, at, b"", (amount / 1000) as u64);
        let digits = [digit(amount / 100), digit(amount / 10), digit(amount)];
        let b = put(out, a, b".");
        return put(out, b, &digits);
    }
    let a = put_named(out, at, b"$", (amount / 100) as u64);
    let digits = [digit(amount / 10), digit(amount)];
    let b = put(out, a, b".");
    put(out, b, &digits)
}

// What stands after a figure, or after several.
pub fn put_per(out: &mut [u8; ANSWER], at: usize, unit: u8) -> usize {
    if unit == 0 {
        return put(out, at, b" cents per kWh");
    }
    put(out, at, b" per MW-day")
}

// `N.NNN cents per kWh`, `$N.NN per MW-day`.
pub fn put_price(out: &mut [u8; ANSWER], at: usize, unit: u8, amount: u32) -> usize {
    let a = put_figure(out, at, unit, amount);
    put_per(out, a, unit)
}

// `N = PRICE`
pub fn put_amount(out: &mut [u8; ANSWER], at: usize, unit: u8, amount: u32) -> usize {
    let a = put_named(out, at, b"", amount as u64);
    let b = put(out, a, b" = ");
    put_price(out, b, unit, amount)
}

// The end of a line with a product's price: ` overridden`, where the price was worked out by the manager's decrement.
pub fn put_price_end(out: &mut [u8; ANSWER], at: usize, overridden: bool) -> usize {
    if overridden {
        return put(out, at, b" overridden\n");
    }
    put(out, at, b"\n")
}

// The unit that prices are counted in.
pub fn put_unit(out: &mut [u8; ANSWER], at: usize, unit: u8) -> usize {
    if unit == 0 {
        return put(out, at, b"thousandths of a cent per kWh");
    }
    put(out, at, b"cents per MW-day")
}

// Basis points as percent, `N.NN`.
pub fn put_points(out: &mut [u8; ANSWER], at: usize, points: u16) -> usize {
    let n = points as u32;
    let a = put_named(out, at, b"", (n / 100) as u64);
    let digits = [digit(n / 10), digit(n)];
    let b = put(out, a, b".");
    put(out, b, &digits)
}
