// Each public call of the console made twice on the same inputs, with the same answer and the same bytes both times. All that is known of a
// call here is its contract. So the contract alone settles what the call gives and leaves: "any two outcomes satisfying a contract
// coincide". A contract that left a choice would leave this crate unproved.
#![tactic(auto)]

ghost use Rattle.std.specs.Prelude.{◌≡◌};

use rules::{
    Awarded, BasisPoints, Calculation, CardRead, Line, Refusal, Reported, Settings, Tranches,
};

// The two answers of a call.
#[derive(Clone, Copy)]
pub struct Pair<T> {
    pub one: T,
    pub other: T,
}

// ---- Calls that write: on two boxes, or two cards, with the same bytes

pub fn open(one: &mut [u8], other: &mut [u8], given: Settings) -> Pair<Result<(), Refusal>>
    requires { one.old ≡ other.old }
    ensures { (result.one ≡ result.other) × (one.new ≡ other.new) }
{
    Pair {
        one: console::open(one, given),
        other: console::open(other, given),
    }
}

pub fn file(one: &mut [u8], other: &mut [u8], card: &[u8]) -> Pair<Result<(), Refusal>>
    requires { one.old ≡ other.old }
    ensures { (result.one ≡ result.other) × (one.new ≡ other.new) }
{
    Pair {
        one: console::file(one, card),
        other: console::file(other, card),
    }
}

pub fn calculate(
    one: &mut [u8],
    other: &mut [u8],
    draw: &[u8],
    overrides: [Option<BasisPoints>; 8],
) -> Pair<Result<Calculation, Refusal>>
    requires { one.old ≡ other.old }
    ensures { (result.one ≡ result.other) × (one.new ≡ other.new) }
{
    Pair {
        one: console::calculate(one, draw, overrides),
        other: console::calculate(other, draw, overrides),
    }
}

pub fn calculate_plain(
    one: &mut [u8],
    other: &mut [u8],
    draw: &[u8],
    overrides: [Option<BasisPoints>; 8],
    order: &[u8],
) -> Pair<Result<Calculation, Refusal>>
    requires { one.old ≡ other.old }
    ensures { (result.one ≡ result.other) × (one.new ≡ other.new) }
{
    Pair {
        one: console::calculate_plain(one, draw, overrides, order),
        other: console::calculate_plain(other, draw, overrides, order),
    }
}

pub fn cutback(
    one: &mut [u8],
    other: &mut [u8],
    targets: [Tranches; 8],
    caps: [Tranches; 8],
) -> Pair<Result<(), Refusal>>
    requires { one.old ≡ other.old }
    ensures { (result.one ≡ result.other) × (one.new ≡ other.new) }
{
    Pair {
        one: console::cutback(one, targets, caps),
        other: console::cutback(other, targets, caps),
    }
}

pub fn return_box(one: &mut [u8], other: &mut [u8]) -> Pair<Result<(), Refusal>>
    requires { one.old ≡ other.old }
    ensures { (result.one ≡ result.other) × (one.new ≡ other.new) }
{
    Pair {
        one: console::return_box(one),
        other: console::return_box(other),
    }
}

pub fn write(
    one: &mut [u8],
    other: &mut [u8],
    products: usize,
    bidder: u8,
    round: u16,
    lines: [Line; 8],
) -> Pair<Result<(), Refusal>>
    requires { one.old ≡ other.old }
    ensures { (result.one ≡ result.other) × (one.new ≡ other.new) }
{
    Pair {
        one: console::write(one, products, bidder, round, lines),
        other: console::write(other, products, bidder, round, lines),
    }
}

// ---- Calls that only read

pub fn count(s: &[u8]) -> Pair<Result<u32, Refusal>>
    ensures { result.one ≡ result.other }
{
    Pair {
        one: console::count(s),
        other: console::count(s),
    }
}

pub fn report(s: &[u8], bidder: u8) -> Pair<Reported>
    ensures { result.one ≡ result.other }
{
    Pair {
        one: console::report(s, bidder),
        other: console::report(s, bidder),
    }
}

pub fn result(s: &[u8]) -> Pair<Awarded>
    ensures { result.one ≡ result.other }
{
    Pair {
        one: console::result(s),
        other: console::result(s),
    }
}

pub fn read(card: &[u8], products: usize) -> Pair<CardRead>
    ensures { result.one ≡ result.other }
{
    Pair {
        one: console::read(card, products),
        other: console::read(card, products),
    }
}

pub fn suggested_volume(bid: u32, ratio: u32) -> Pair<Result<u32, Refusal>>
    ensures { result.one ≡ result.other }
{
    Pair {
        one: console::suggested_volume(bid, ratio),
        other: console::suggested_volume(bid, ratio),
    }
}
