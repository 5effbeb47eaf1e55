// The largest rounds, for counting what a calculation costs (bench/count). Each argument is a letter. A state is chosen by `w`, whose
// calculation keeps 1,600 withdrawals of bidders who did not file, `s`, which denies 1,400 switches, `o`, which outbids 1,400
// withdrawals kept the round before, or `r`, which reads the state from standard input. With four lots of each bidder on each product: `l`
// keeps 1,600, `m` outbids 1,400 kept the round before, and `x` outbids 1,600, of a state that stands and that no auction comes to. Then
// `k` calculates it, `c` only counts its cards, which judges the state as every call does, `b` writes its bytes, and `a` those after the
// calculation; `p` and `n` do as `k` and `a` by the plain engine, the products backwards. Apart from a state, `d` reads the largest card, and
// `e` writes it.
#![tactic(auto)]

use layout::{FREE, PHASE, ROUND, SEAT, STATE};
use rules::{
    BasisPoints, Bid, Calculation, KwhPrice, Line, Lot, Lots, Price, Product, Refusal, Row,
    Settings, Tranches, Unit,
};
use std::array;
use std::env::FillError;
use std::io::Read;
use std::rt::Env;

// 8 products of 200 tranches, 32 bidders who may bid `each` tranches.
fn settings(each: u16) -> Settings {
    let product = Product {
        target: Tranches(200),
        cap: Tranches(200),
        start: Price::Kwh(KwhPrice(10000)),
    };
    let none = Row {
        percent: 0,
        decrement: BasisPoints(0),
    };
    let mut row = [none; 8];
    row[0] = Row {
        percent: 0,
        decrement: BasisPoints(100),
    };
    Settings {
        unit: Unit::Kwh,
        products: 8,
        bidders: 32,
        rows: 1,
        statewide: Tranches(1600),
        product: [product; 8],
        eligibility: [Tranches(each); 32],
        row,
    }
}

fn line(tranches: u16, priority: u8) -> Line {
    Line {
        tranches: Tranches(tranches),
        withdrawn: Lots::none(),
        priority,
    }
}

fn withdrawn(count: u16, exit: u32) -> Line {
    Line {
        tranches: Tranches(0),
        withdrawn: Lots::single(Tranches(count), exit),
        priority: 0,
    }
}

fn lot(count: u16, exit: u32) -> Lot {
    Lot {
        count: Tranches(count),
        exit,
    }
}

// 7 tranches withdrawn in four lots.
fn in_lots() -> Line {
    Line {
        tranches: Tranches(0),
        withdrawn: Lots {
            one: lot(2, 9910),
            two: lot(2, 9930),
            three: lot(2, 9950),
            four: lot(1, 9970),
        },
        priority: 0,
    }
}

// Every bidder files the same lines.
fn file_all(state: &mut [u8], round: u16, lines: [Line; 8]) {
    for b in 0..32 {
        let mut card = [0u8; 114];
        let _ = console::write(&mut card, 8, b, round, lines);
        let _ = console::file(state, &card);
    }
}

fn draw() -> [u8; 32] {
    array::from_fn(|i| i as u8)
}

fn no_overrides() -> [Option<BasisPoints>; 8] {
    [None; 8]
}

// An order of the products for the plain engine: the last in rank goes first.
fn backwards() -> [u8; 8] {
    [7, 6, 5, 4, 3, 2, 1, 0]
}

// The state is returned, and an auction opened whose bidders may bid `each` tranches.
fn opened(state: &mut [u8], each: u16) {
    let _ = console::return_box(state);
    let _ = console::open(state, settings(each));
}

// A round in which every bidder files the same lines.
fn played(state: &mut [u8], round: u16, lines: [Line; 8]) {
    file_all(state, round, lines);
    let _ = console::calculate(state, &draw(), no_overrides());
}

// Round 2 with 224 tranches bid on every product, and nobody has filed.
fn all_withdraw(state: &mut [u8]) {
    opened(state, 56);
    played(state, 1, [line(7, 0); 8]);
}

// Round 2 with 224 tranches bid on seven products, and all of them moved to the eighth.
fn all_switch(state: &mut [u8]) {
    opened(state, 56);
    let mut lines = [line(7, 0); 8];
    lines[7] = line(0, 0);
    played(state, 1, lines);
    let mut moved = [line(0, 0); 8];
    moved[7] = line(49, 1);
    file_all(state, 2, moved);
}

// Round 2 with 224 tranches bid on every product, and all of them withdrawn in lots.
fn all_in_lots(state: &mut [u8]) {
    opened(state, 112);
    played(state, 1, [line(7, 0); 8]);
    file_all(state, 2, [in_lots(); 8]);
}

// Round 3 with 200 withdrawals kept on seven products, withdrawn as the line says, and 3,200 tranches bid on the eighth.
fn all_kept(state: &mut [u8], gone: Line) {
    opened(state, 149);
    let mut lines = [line(7, 0); 8];
    lines[7] = line(100, 0);
    played(state, 1, lines);
    let mut left = [gone; 8];
    left[7] = line(100, 0);
    played(state, 2, left);
}

fn moved_back() -> [Line; 8] {
    [
        line(7, 1),
        line(7, 2),
        line(7, 3),
        line(7, 4),
        line(7, 5),
        line(7, 6),
        line(7, 7),
        line(51, 0),
    ]
}

// The same, and 224 tranches are moved from the eighth product to each of the others.
fn all_outbid(state: &mut [u8], gone: Line) {
    all_kept(state, gone);
    file_all(state, 3, moved_back());
}

// A closed auction is open again, in round 3, and every bidder has 56 tranches free.
fn open_again(state: &mut [u8]) {
    if state.len() != STATE {
        return;
    }
    state[PHASE] = 1;
    state[ROUND + 1] = 3;
    for b in 0..32 {
        state[FREE + SEAT * b + 1] = 56;
    }
}

// Closed in round 2 with 200 withdrawals kept in lots on every product.
fn all_retained(state: &mut [u8]) {
    all_in_lots(state);
    let _ = console::calculate(state, &draw(), no_overrides());
}

// The same in round 3, and 224 tranches are bid on each product from free eligibility.
fn all_at_once(state: &mut [u8]) {
    all_retained(state);
    open_again(state);
    file_all(state, 3, [line(7, 0); 8]);
}

// What cannot be written nobody is left to tell.
fn write(rt: &impl Print, bytes: &[u8]) {
    let _ = rt.write_all(bytes);
}

fn say(rt: &impl Print, words: &[u8], n: u32) {
    write(rt, words);
    let _ = rt.print(n);
}

fn told(rt: &impl Print, answer: Result<Calculation, Refusal>) {
    match answer {
        Ok(Calculation { kept, outbid }) => {
            say(rt, b"kept ", kept);
            say(rt, b", outbid ", outbid);
        }
        Err(e) => say(rt, b"refused ", e.number() as u32),
    }
    write(rt, b"\n");
}

fn counted(rt: &impl Print, state: [u8; STATE]) {
    let answer = console::count(&state);
    match answer {
        Ok(n) => say(rt, b"still to file ", n),
        Err(e) => say(rt, b"refused ", e.number() as u32),
    }
    write(rt, b"\n");
}

// The largest card, with every bit of its fields set: 905 bits, and 7 that fill the last byte.
fn largest_card() -> [u8; 114] {
    let mut card = [255u8; 114];
    card[113] = 128;
    card
}

fn read_card(rt: &impl Print) {
    let read = console::read(&largest_card(), 8);
    let card = read.card;
    match card {
        Ok(Bid { bidder, round }) => {
            say(rt, b"bidder ", bidder as u32);
            say(rt, b", round ", round as u32);
        }
        Err(e) => say(rt, b"refused ", e.number() as u32),
    }
    let lines = read.lines;
    let last = lines[7];
    say(rt, b", product 7 priority ", last.priority as u32);
    write(rt, b"\n");
}

fn written_card(rt: &impl Print) {
    let four = lot(255, 131071);
    let full = Line {
        tranches: Tranches(255),
        withdrawn: Lots {
            one: four,
            two: four,
            three: four,
            four,
        },
        priority: 7,
    };
    let mut card = [0u8; 114];
    let _ = console::write(&mut card, 8, 31, 4095, [full; 8]);
    say(rt, b"the last byte is ", card[113] as u32);
    write(rt, b"\n");
}

fn choose(rt: &impl Input, state: &mut [u8], letter: u8) {
    match letter {
        b'w' => all_withdraw(state),
        b's' => all_switch(state),
        b'o' => all_outbid(state, withdrawn(7, 9950)),
        b'l' => all_in_lots(state),
        b'm' => all_outbid(state, in_lots()),
        b'x' => all_at_once(state),
        // a state that ends early stands at the start
        b'r' => {
            let _ = rt.reader().read_exact(state);
        }
        _ => {}
    }
}

fn act(rt: &impl Print, start: [u8; STATE], letter: u8) {
    let mut state = start;
    match letter {
        b'k' => told(rt, console::calculate(&mut state, &draw(), no_overrides())),
        b'c' => counted(rt, state),
        b'b' => write(rt, &state),
        b'a' => {
            let _ = console::calculate(&mut state, &draw(), no_overrides());
            write(rt, &state);
        }
        b'p' => told(
            rt,
            console::calculate_plain(&mut state, &draw(), no_overrides(), &backwards()),
        ),
        b'n' => {
            let _ = console::calculate_plain(&mut state, &draw(), no_overrides(), &backwards());
            write(rt, &state);
        }
        b'd' => read_card(rt),
        b'e' => written_card(rt),
        _ => {}
    }
}

fn main(rt: HostRuntime) {
    let mut state = [0u8; STATE];
    for i in 1..usize::MAX {
        let mut word = [0u8; 8];
        if let Err(FillError::NotPresent) = rt.arg(i, &mut word) {
            return;
        }
        choose(&rt, &mut state, word[0]);
        act(&rt, state, word[0]);
    }
}
