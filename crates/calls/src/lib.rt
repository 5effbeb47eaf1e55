// The commands that change the state: each makes its call on a copy, and says which call it was.
#![tactic(auto)]

ghost use Rattle.std.specs.Prelude.{◌≤◌, ◌<◌};
ghost use Rattle.calls.specs.Lines.{Made as Makes, open_word, file_word, bid_word, calculate_word, cutback_word, return_word};

use asked::{
    Numbers, One, Revised, draw_of, ends, groups, one_byte, one_number, other_groups, other_pairs,
    pairs, revised_of,
};
use check::same;
use layout::STATE;
use rules::{BasisPoints, Calculation, Line, Refusal, Settings};
use store::{Act, Kind, is_wrong, number_on};
use text::{ANSWER, Cursor, put, put_hex, put_named};
use view::{put_calculated, put_cut, put_filed, put_opened, put_refused};

// What a line made of the copy: no call of this kind; a call that was refused, or none since the line is wrong; a call that is done.
// Of the last two how long the answer is.
#[derive(Clone, Copy)]
pub enum Made {
    Other,
    Said(usize),
    Done(Act, usize),
}

// A refusal of any call on a state, with what the state is.
pub fn refused(n: u8, state: &[u8; STATE], out: &mut [u8; ANSWER]) -> usize {
    let a = put_refused(out, n);
    let b = remark::of_phase(out, a, n, state);
    put(out, b, b"\n")
}

// The length of the console's refusal of a box of another length; 0 for any other box.
pub fn other_length(kind: Kind, state: &[u8; STATE], out: &mut [u8; ANSWER]) -> usize {
    if is_wrong(kind) {
        return refused(number_on(kind, state), state, out);
    }
    0
}

// ---- Opening and return

// What is said of an opening: the settings as they were taken, or which of them is outside its limits.
fn opened(
    answer: Result<(), Refusal>,
    settings: Settings,
    work: &[u8; STATE],
    out: &mut [u8; ANSWER],
) -> Made {
    match answer {
        Ok(()) => {
            let a = put(out, 0, b"ok\n");
            Made::Done(Act::Opening, put_opened(out, a, work))
        }
        Err(e) => {
            let n = e.number();
            let a = put_refused(out, n);
            let b = remark::of_opening(out, a, n, work, settings);
            Made::Said(put(out, b, b"\n"))
        }
    }
}

// Settings that are handed over are known to have their lengths.
fn open_on(work: &mut [u8; STATE], settings: Settings) -> Result<(), Refusal>
    ensures { Makes open_word work.old work.new }
{
    console::open(work, settings)
}

fn open(line: &[u8], c: Cursor, kind: Kind, work: &mut [u8; STATE], out: &mut [u8; ANSWER]) -> Made
    ensures { Makes open_word work.old work.new }
{
    let asked = asked::settings(line, c, out);
    if asked.said != 0 {
        return Made::Said(asked.said);
    }
    let wrong = other_length(kind, work, out);
    if wrong != 0 {
        return Made::Said(wrong);
    }
    let settings = asked.settings;
    let answer = open_on(work, settings);
    opened(answer, settings, work, out)
}

fn returned(answer: Result<(), Refusal>, work: &[u8; STATE], out: &mut [u8; ANSWER]) -> Made {
    match answer {
        Ok(()) => {
            let a = put(out, 0, b"ok\n");
            Made::Done(Act::Return, view::put_back(out, a, work))
        }
        Err(e) => Made::Said(refused(e.number(), work, out)),
    }
}

fn return_box(
    line: &[u8],
    c: Cursor,
    kind: Kind,
    work: &mut [u8; STATE],
    out: &mut [u8; ANSWER],
) -> Made
    ensures { Makes return_word work.old work.new }
{
    let more = ends(line, c, out);
    if more != 0 {
        return Made::Said(more);
    }
    let wrong = other_length(kind, work, out);
    if wrong != 0 {
        return Made::Said(wrong);
    }
    let answer = console::return_box(work);
    returned(answer, work, out)
}

// ---- A calculation

// By rank, or where an order of the products is given by the plain engine in that order: what they answer and leave is the same, and so is
// what is said of it.
fn calculate_on(
    work: &mut [u8; STATE],
    draw: &[u8],
    overrides: [Option<BasisPoints>; 8],
    order: &[u8],
) -> Result<Calculation, Refusal>
    ensures { Makes calculate_word work.old work.new }
{
    if order.len() == 0 {
        return console::calculate(work, draw, overrides);
    }
    console::calculate_plain(work, draw, overrides, order)
}

// `ok kept K outbid O`, and what the round did; or what is wrong with the draw, an override or the order.
fn calculated(
    answer: Result<Calculation, Refusal>,
    draw: &[u8],
    overrides: [Option<BasisPoints>; 8],
    order: &[u8],
    before: &[u8; STATE],
    work: &[u8; STATE],
    out: &mut [u8; ANSWER],
) -> Made {
    match answer {
        Ok(Calculation { kept, outbid }) => {
            let a = put_named(out, 0, b"ok kept ", kept as u64);
            let b = put_named(out, a, b" outbid ", outbid as u64);
            let c = put(out, b, b"\n");
            Made::Done(
                Act::Calculation,
                put_calculated(out, c, before, overrides, work),
            )
        }
        Err(e) => {
            let n = e.number();
            let a = put_refused(out, n);
            let b = remark::of_round(out, a, n, work, draw, overrides, order);
            Made::Said(put(out, b, b"\n"))
        }
    }
}

// `calculate D0 D1 .. override PRODUCT POINTS .. order P0 P1 ..`
fn calculate(
    line: &[u8],
    c: Cursor,
    kind: Kind,
    work: &mut [u8; STATE],
    out: &mut [u8; ANSWER],
) -> Made
    ensures { Makes calculate_word work.old work.new }
{
    let mut numbers = [0u32; 40];
    let mut products = [0u32; 40];
    let asked = asked::draw(line, c, &mut numbers, &mut products, out);
    if asked.said != 0 {
        return Made::Said(asked.said);
    }
    let wrong = other_length(kind, work, out);
    if wrong != 0 {
        return Made::Said(wrong);
    }
    let draw = draw_of(numbers);
    let order = draw_of(products);
    let k = asked.count;
    let m = asked.ordered;
    if 40 < k {
        return Made::Other;
    }
    if 40 < m {
        return Made::Other;
    }
    let overrides = asked.overrides;
    let before = *work;
    let answer = calculate_on(work, &draw[0..k], overrides, &order[0..m]);
    calculated(
        answer,
        &draw[0..k],
        overrides,
        &order[0..m],
        &before,
        work,
        out,
    )
}

// How many products a bid or a cutback has to name, or how long the refusal is where neither is open to it.
#[derive(Clone, Copy)]
enum Products {
    Open(usize),
    Said(usize),
}

fn open_products(kind: Kind, state: &[u8; STATE], out: &mut [u8; ANSWER]) -> Products {
    let wrong = other_length(kind, state, out);
    if wrong != 0 {
        return Products::Said(wrong);
    }
    match console::count(state) {
        Ok(_) => Products::Open(book::products(state)),
        Err(e) => Products::Said(refused(e.number(), state, out)),
    }
}

// `ok`, and what the cutback left; or which condition is not met.
fn cut(
    answer: Result<(), Refusal>,
    revised: Revised,
    before: &[u8; STATE],
    work: &[u8; STATE],
    out: &mut [u8; ANSWER],
) -> Made {
    match answer {
        Ok(()) => {
            let a = put(out, 0, b"ok\n");
            Made::Done(Act::Plain, put_cut(out, a, before, work))
        }
        Err(e) => {
            let n = e.number();
            let a = put_refused(out, n);
            let targets = revised.targets;
            let caps = revised.caps;
            let b = remark::of_cutback(out, a, n, work, targets, caps);
            Made::Said(put(out, b, b"\n"))
        }
    }
}

// `cutback T C ..`: 1, 2 and 3 go before the number of pairs, as with a bid
fn cutback(
    line: &[u8],
    c: Cursor,
    kind: Kind,
    work: &mut [u8; STATE],
    out: &mut [u8; ANSWER],
) -> Made
    ensures { Makes cutback_word work.old work.new }
{
    let mut numbers = [0u32; 40];
    match pairs(line, c, &mut numbers, out) {
        Numbers::Found(k) => match open_products(kind, work, out) {
            Products::Open(products) => {
                if k != products {
                    return Made::Said(other_pairs(line, c, products, out));
                }
                let revised = revised_of(numbers);
                let targets = revised.targets;
                let caps = revised.caps;
                let before = *work;
                let answer = console::cutback(work, targets, caps);
                cut(answer, revised, &before, work, out)
            }
            Products::Said(n) => Made::Said(n),
        },
        Numbers::Said(n) => Made::Said(n),
    }
}

// ---- A card

// What is said of a card that is filed, after the first line; or where it breaks a rule.
fn filed(
    answer: Result<(), Refusal>,
    first: usize,
    card: &[u8],
    before: &[u8; STATE],
    work: &[u8; STATE],
    out: &mut [u8; ANSWER],
) -> Made {
    match answer {
        Ok(()) => {
            let b = bidder_of(card);
            let a = put_filed(out, first, work, b);
            Made::Done(Act::Plain, put_again(out, a, before, work, b))
        }
        Err(e) => {
            let n = e.number();
            let a = put_refused(out, n);
            let b = remark::of_card(out, a, n, work, card);
            Made::Said(put(out, b, b"\n"))
        }
    }
}

// Whose card it is: its first five bits.
fn bidder_of(card: &[u8]) -> usize
    ensures { result < 32 }
{
    match card.first() {
        Some(byte) => *byte as usize / 8,
        None => 0,
    }
}

// "The last valid card in a round stands": where bidder b had filed one before, what became of that. Only among one bidder's own cards does
// the order matter, and so it is told here.
fn put_again(
    out: &mut [u8; ANSWER],
    at: usize,
    before: &[u8; STATE],
    work: &[u8; STATE],
    b: usize,
) -> usize
    requires { b < 32 }
{
    if !book::has_filed(before, b) {
        return at;
    }
    if same(before, work) {
        return put(
            out,
            at,
            b"  it is the card that stands already: nothing is changed\n",
        );
    }
    put(
        out,
        at,
        b"  it takes the place of the card that was filed before\n",
    )
}

// `file HEX`
fn file(line: &[u8], c: Cursor, kind: Kind, work: &mut [u8; STATE], out: &mut [u8; ANSWER]) -> Made
    ensures { Makes file_word work.old work.new }
{
    let mut card = [0u8; 1024];
    match asked::card(line, c, &mut card, out) {
        Numbers::Found(k) => {
            let wrong = other_length(kind, work, out);
            if wrong != 0 {
                return Made::Said(wrong);
            }
            file_bytes(work, &card[..k.min(1024)], out)
        }
        Numbers::Said(n) => Made::Said(n),
    }
}

fn file_bytes(work: &mut [u8; STATE], card: &[u8], out: &mut [u8; ANSWER]) -> Made
    ensures { Makes file_word work.old work.new }
{
    let before = *work;
    let answer = console::file(work, card);
    let first = put(out, 0, b"ok\n");
    filed(answer, first, card, &before, work, out)
}

// How many bytes a card has. A count that has no card gets none.
pub fn card_length(products: usize) -> usize
    ensures { result ≤ 114 }
{
    if 8 < products {
        return 0;
    }
    card::length_for(products)
}

// The bytes of a card, lent before.
pub fn bytes_of(card: [u8; 1024]) -> [u8; 1024] {
    card
}

// `ok HEX`
pub fn put_card(out: &mut [u8; ANSWER], card: &[u8]) -> usize {
    let a = put(out, 0, b"ok ");
    let b = put_hex(out, a, card);
    put(out, b, b"\n")
}

// Which field a card has no room for.
pub fn not_written(
    n: u8,
    products: usize,
    bidder: u8,
    round: u16,
    lines: [Line; 8],
    out: &mut [u8; ANSWER],
) -> usize {
    let a = put_refused(out, n);
    let b = remark::of_write(out, a, n, products, bidder, round, lines);
    put(out, b, b"\n")
}

// A card that was written is filed.
fn file_written(work: &mut [u8; STATE], card: &[u8], out: &mut [u8; ANSWER]) -> Made
    ensures { Makes bid_word work.old work.new }
{
    let before = *work;
    let answer = console::file(work, card);
    let first = put_card(out, card);
    filed(answer, first, card, &before, work, out)
}

// The bidder's card of the present round, written and filed.
fn bid_on(
    bidder: u32,
    lines: [Line; 8],
    products: usize,
    work: &mut [u8; STATE],
    out: &mut [u8; ANSWER],
) -> Made
    ensures { Makes bid_word work.old work.new }
{
    let round = book::round(work);
    let k = card_length(products);
    let mut room = [0u8; 1024];
    match console::write(&mut room[0..k], products, one_byte(bidder), round, lines) {
        Ok(()) => {
            let card = bytes_of(room);
            file_written(work, &card[0..k], out)
        }
        Err(e) => Made::Said(not_written(
            e.number(),
            products,
            one_byte(bidder),
            round,
            lines,
            out,
        )),
    }
}

// `bid B T LOTS P ..`
fn bid(line: &[u8], c: Cursor, kind: Kind, work: &mut [u8; STATE], out: &mut [u8; ANSWER]) -> Made
    ensures { Makes bid_word work.old work.new }
{
    match one_number(line, c, out) {
        One::Number(bidder, next) => {
            let asked = groups(line, next, out);
            if asked.said != 0 {
                return Made::Said(asked.said);
            }
            match open_products(kind, work, out) {
                Products::Open(products) => {
                    if asked.count != products {
                        return Made::Said(other_groups(line, next, products, out));
                    }
                    let lines = asked.lines;
                    bid_on(bidder, lines, products, work, out)
                }
                Products::Said(n) => Made::Said(n),
            }
        }
        One::Said(n) => Made::Said(n),
    }
}

// The call that a word names, made on the copy with what stands after the word.
pub fn make(
    w: &[u8],
    line: &[u8],
    c: Cursor,
    kind: Kind,
    work: &mut [u8; STATE],
    out: &mut [u8; ANSWER],
) -> Made
    ensures { Makes w.now work.old work.new }
{
    match w {
        b"open" => open(line, c, kind, work, out),
        b"file" => file(line, c, kind, work, out),
        b"bid" => bid(line, c, kind, work, out),
        b"calculate" => calculate(line, c, kind, work, out),
        b"cutback" => cutback(line, c, kind, work, out),
        b"return" => return_box(line, c, kind, work, out),
        _ => Made::Other,
    }
}
