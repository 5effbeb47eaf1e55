// The bid card: "Bits packed most significant first: bidder 5, round 12; then for each product in rank: tranches 8", "up to
// four lots, each a count of 8 bits and a price of 17", "switching priority 3. Zero bits fill the last byte."
#![tactic(auto)]

ghost use Rattle.std.specs.Prelude.{◌≡◌, cond, ◌+◌, ◌*◌, ◌-◌, ◌^◌, ◌≤◌, ◌<◌, length, replicate, ltb, eqb, Ok, Err};
ghost use Rattle.rules.specs.declared.Refusal.TheVariants.{Filling};
ghost use Rattle.rules.specs.Answers.{number_of};
ghost use Rattle.rules.specs.Count.{all_up_to};
ghost use Rattle.rules.specs.Allowed.{limits};
ghost use Rattle.rules.specs.Lots.{lot, lots, lot_zero, lots_zero};
ghost use Rattle.rules.specs.Bits.{field_at};
ghost use Rattle.rules.specs.Card.{line, no_line, lot_bits, line_bits, line_bit, card_length, lot_fits, lots_fit, line_fits, line_zero, lot_from, line_at, read_lines, filled, read_refused, bid_by, read_card, put_lot, put_lots, put_line, put_lines, write_card};
ghost use Rattle.card.specs.Parts.{value_of, Ahead, on, line_writable};

use bits::{Reader, put_field};
use rules::{Bid, CardRead, Limits, Line, Lot, Lots, Refusal, Tranches};

// ---- the fields' bits

// "bidder 5, round 12; then for each product in rank: tranches 8", "up to four lots, each a count of 8 bits and a price of 17",
// "switching priority 3"
const BIDDER: usize = 5;

const ROUND: usize = 12;

const TRANCHES: usize = 8;

const COUNT: usize = 8;

const PRICE: usize = 17;

const PRIORITY: usize = 3;

// Where the line of the first product begins, how many bits a lot takes, and a line.
const LINES: usize = BIDDER + ROUND;

const LOT: usize = COUNT + PRICE;

const LINE: usize = TRANCHES + 4 * LOT + PRIORITY;

// How many bytes a card has: "Zero bits fill the last byte."
pub fn length_for(products: usize) -> usize
    requires { products ≤ 8 }
    ensures { (result ≡ card_length products) × (result ≤ 114) }
{
    (LINES + LINE * products + 7) / 8
}

// And how many of its bits fill it.
pub fn filling_for(products: usize) -> usize
    requires { products ≤ 8 }
    ensures { (result ≡ 8 * card_length products - line_bit products) × (result < 8) }
{
    8 * length_for(products) - (LINES + LINE * products)
}

// ---- reading

// What a field's answer holds: of a field past the card nothing.
fn value_of(field: Option<u32>) -> u32
    ensures { result ≡ value_of field }
{
    let Some(value) = field else {
        return 0;
    };
    value
}

fn lot_of(count: Option<u32>, exit: Option<u32>) -> Lot
    requires { value_of count < 2 ^ 8 }
    ensures { result ≡ lot (value_of count) (value_of exit) }
{
    Lot {
        count: Tranches(value_of(count) as u16),
        exit: value_of(exit),
    }
}

fn line_of(
    tranches: Option<u32>,
    one: Lot,
    two: Lot,
    three: Lot,
    four: Lot,
    priority: Option<u32>,
) -> Line
    requires { (value_of tranches < 2 ^ 8) × (value_of priority < 2 ^ 3) }
    ensures { result ≡ line (value_of tranches) (lots one two three four) (value_of priority) }
{
    Line {
        tranches: Tranches(value_of(tranches) as u16),
        withdrawn: Lots {
            one,
            two,
            three,
            four,
        },
        priority: value_of(priority) as u8,
    }
}

// The reader takes a lot: "a count of 8 bits and a price of 17".
fn take_lot<'s, 'a>(reader: &'s mut Reader<'a>) -> Lot
    requires { Ahead reader.old lot_bits }
    ensures { (result ≡ lot_from reader.old.card.now reader.old.at) × (reader.new ≡ on reader.old lot_bits) }
{
    let count = reader.take(COUNT);
    let exit = reader.take(PRICE);
    lot_of(count, exit)
}

// The reader takes the line of a product: "tranches 8", "up to four lots", "switching priority 3".
fn take_line<'s, 'a>(reader: &'s mut Reader<'a>) -> Line
    requires { Ahead reader.old line_bits }
    ensures { (result ≡ line_at reader.old.card.now reader.old.at) × (reader.new ≡ on reader.old line_bits) }
{
    let tranches = reader.take(TRANCHES);
    let one = take_lot(reader);
    let two = take_lot(reader);
    let three = take_lot(reader);
    let four = take_lot(reader);
    let priority = reader.take(PRIORITY);
    line_of(tranches, one, two, three, four, priority)
}

fn no_lines() -> [Line; 8]
    ensures { result ≡ replicate 8 no_line }
{
    let none = Line::none();
    [none; 8]
}

// "for each product in rank": the reader takes their lines, one after the other.
fn take_lines<'s, 'a>(reader: &'s mut Reader<'a>, products: usize) -> [Line; 8]
    requires { (products ≤ 8) × (reader.old.at ≡ line_bit 0) × Ahead reader.old (line_bits * products) }
    ensures { (result ≡ read_lines reader.old.card.now products) × (reader.new ≡ on reader.old (line_bits * products)) }
{
    let mut lines = no_lines();
    for i in 0..products {
        lines[i] = take_line(reader);
    }
    lines
}

// A bid of the fields taken, unless bits that fill the card are not zero.
fn card_of(bidder: Option<u32>, round: Option<u32>, filling: Option<u32>) -> Result<Bid, Refusal>
    requires { (value_of bidder < 2 ^ 5) × (value_of round < 2 ^ 12) }
    ensures { result ≡ cond (eqb (value_of filling) 0) (Ok (bid_by (value_of bidder) (value_of round))) (Err Filling) }
{
    if value_of(filling) != 0 {
        return Err(Refusal::Filling);
    }
    let bidder = value_of(bidder) as u8;
    let round = value_of(round) as u16;
    Ok(Bid { bidder, round })
}

// A card of its length, by one reader: from the first bit on it takes "bidder 5, round 12; then for each product in rank" its
// line, and then what fills the last byte.
fn take_card(card: &[u8], products: usize) -> CardRead
    requires { (products ≤ 8) × (length card.now ≡ card_length products) }
    ensures { (result.card ≡ cond (filled card.now products) (Ok (bid_by (field_at card.now 0 5) (field_at card.now 5 12))) (Err Filling)) × (result.lines ≡ read_lines card.now products) }
{
    let mut reader = Reader::new(card);
    let bidder = reader.take(BIDDER);
    let round = reader.take(ROUND);
    let lines = take_lines(&mut reader, products);
    let filling = reader.take(filling_for(products));
    let card = card_of(bidder, round, filling);
    CardRead { card, lines }
}

// A refused read answers why, beside an all-zero array.
fn refused(why: Refusal) -> CardRead
    ensures { result ≡ read_refused (number_of why) }
{
    CardRead {
        card: Err(why),
        lines: no_lines(),
    }
}

// Reads a card to a bid, for a stated product count. Refused are 29 a count not 1 to 8, 4 a wrong length, and 5 filling
// bits that are not zero; no field of a card of the right length is past it.
pub fn read(card: &[u8], products: usize) -> CardRead
    ensures { result ≡ read_card card.now products }
{
    if products < 1 {
        return refused(Refusal::ProductCount);
    }
    if products > 8 {
        return refused(Refusal::ProductCount);
    }
    if card.len() != length_for(products) {
        return refused(Refusal::CardLength);
    }
    let taken = take_card(card, products);
    let Ok(_) = taken.card else {
        return refused(Refusal::Filling);
    };
    taken
}

// ---- writing

fn put_lot(room: &mut [u8], at: usize, lot: Lot)
    requires { (at + lot_bits ≤ 8 * length room.old) × (length room.old ≤ 114) }
    ensures { room.new ≡ put_lot room.old at lot }
{
    put_field(room, at, COUNT, lot.count.0 as u32);
    put_field(room, at + COUNT, PRICE, lot.exit);
}

fn put_lots(room: &mut [u8], at: usize, lots: Lots)
    requires { (at + 4 * lot_bits ≤ 8 * length room.old) × (length room.old ≤ 114) }
    ensures { room.new ≡ put_lots room.old at lots }
{
    put_lot(room, at, lots.one);
    put_lot(room, at + LOT, lots.two);
    put_lot(room, at + 2 * LOT, lots.three);
    put_lot(room, at + 3 * LOT, lots.four);
}

fn put_line(room: &mut [u8], at: usize, line: Line)
    requires { (at + line_bits ≤ 8 * length room.old) × (length room.old ≤ 114) }
    ensures { room.new ≡ put_line room.old at line }
{
    put_field(room, at, TRANCHES, line.tranches.0 as u32);
    put_lots(room, at + TRANCHES, line.withdrawn);
    put_field(
        room,
        at + TRANCHES + 4 * LOT,
        PRIORITY,
        line.priority as u32,
    );
}

fn put_lines(room: &mut [u8], lines: [Line; 8], products: usize)
    requires { (products ≤ 8) × (length room.old ≡ card_length products) }
    ensures { room.new ≡ put_lines room.old lines products }
{
    for i in 0..products {
        put_line(room, LINES + LINE * i, lines[i]);
    }
}

// What a field holds, of the bits that it has: "bidder 5, round 12"; "tranches 8", "each a count of 8 bits and a price of 17",
// "switching priority 3".
pub const MOST_BIDDER: u32 = 31;

pub const MOST_ROUND: u32 = 4095;

pub const MOST_TRANCHES: u32 = 255;

pub const MOST_EXIT: u32 = 131071;

pub const MOST_PRIORITY: u32 = 7;

pub fn up_to(most: u32) -> Limits
    ensures { result ≡ limits 0 most }
{
    Limits { least: 0, most }
}

// What a field of product i may be; past the count 0.
pub fn field_limits(products: usize, i: usize, most: u32) -> Limits
    ensures { result ≡ limits 0 (cond (ltb i products) most 0) }
{
    if i < products {
        return up_to(most);
    }
    up_to(0)
}

fn lot_writable(products: usize, i: usize, lot: Lot) -> bool
    ensures { result ≡ cond (ltb i products) (lot_fits lot) (lot_zero lot) }
{
    let of_count = field_limits(products, i, MOST_TRANCHES);
    let of_exit = field_limits(products, i, MOST_EXIT);
    of_count.holds(lot.count.0 as u32) & of_exit.holds(lot.exit)
}

fn lots_writable(products: usize, i: usize, lots: Lots) -> bool
    ensures { result ≡ cond (ltb i products) (lots_fit lots) (lots_zero lots) }
{
    let one = lot_writable(products, i, lots.one);
    let two = lot_writable(products, i, lots.two);
    let three = lot_writable(products, i, lots.three);
    let four = lot_writable(products, i, lots.four);
    one & (two & (three & four))
}

fn line_writable(products: usize, i: usize, line: Line) -> bool
    ensures { result ≡ cond (ltb i products) (line_fits line) (line_zero line) }
{
    let of_tranches = field_limits(products, i, MOST_TRANCHES);
    let of_priority = field_limits(products, i, MOST_PRIORITY);
    of_tranches.holds(line.tranches.0 as u32)
        & (lots_writable(products, i, line.withdrawn) & of_priority.holds(line.priority as u32))
}

// A line fits its bits; past the count it is all zero.
fn lines_writable(products: usize, lines: [Line; 8]) -> bool
    ensures { result ≡ all_up_to (line_writable products lines) 8 }
{
    (0..8usize).all(|i| line_writable(products, i, lines[i]))
}

// Writes a bid as a card, for a stated product count. Refused are 29 a count not 1 to 8, 4 room of a wrong length, and 30 a
// field too large for its bits, or not 0 past the count; nothing is stored before the last of these tests has passed.
pub fn write(
    room: &mut [u8],
    products: usize,
    bidder: u8,
    round: u16,
    lines: [Line; 8],
) -> Result<(), Refusal>
    ensures { (result ≡ (write_card room.old products bidder round lines).answer) × (room.new ≡ (write_card room.old products bidder round lines).bytes) }
{
    if products < 1 {
        return Err(Refusal::ProductCount);
    }
    if products > 8 {
        return Err(Refusal::ProductCount);
    }
    if room.len() != length_for(products) {
        return Err(Refusal::CardLength);
    }
    let fit = up_to(MOST_BIDDER).holds(bidder as u32)
        & (up_to(MOST_ROUND).holds(round as u32) & lines_writable(products, lines));
    if !fit {
        return Err(Refusal::Field);
    }
    state::clear(room);
    put_field(room, 0, BIDDER, bidder as u32);
    put_field(room, BIDDER, ROUND, round as u32);
    put_lines(room, lines, products);
    Ok(())
}
