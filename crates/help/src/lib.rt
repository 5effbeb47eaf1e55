// What the desk says to `help` and `?`. The reader knows the trade and has not read the documents.
#![tactic(auto)]

mod auction;
mod cards;
mod desk;
mod filing;
mod refusals;
mod rounds;
mod topics;

use text::{ANSWER, put};

// Every command, in the order in which a manager needs them.
const COMMANDS: &[&[u8]] = &[
    b"  before the auction
    open UNIT STATEWIDE product T C P .. bidder E .. row PCT DEC ..
                          open it: unit, statewide cap, products, bidders, rows of decrements
    name bidder B NAME    give a bidder a name, to be shown after its number; - takes it away
    name product P NAME   the same for a product
    names                 the names that are given
  each round
    bid B T LOTS P ..     file bidder B's card of this round: of each product tranches,
                          what is withdrawn at which exit prices, and switching priority
    file HEX              file a card given as bytes
    count                 how many bidders are still to file
    missing               which bidders are still to file
    filed, filed B        what is filed in this round, by all or by bidder B
    calculate D0 D1 .. [override P POINTS ..] [order P0 P1 ..]
                          calculate the round; all bidders in draw order, earliest first; an
                          override is the manager's decrement for product P, in this round alone;
                          an order of all products, in place of rank, changes nothing
    show                  the whole state
    undo                  put back the state before the last calculation or return, once
    suggest BID RATIO     after round 1: the volume for BID tranches bid, RATIO in hundredths
    cutback T C ..        after round 1, before a card of round 2: cut each product's target and cap
    report B, report all  what bidder B is told, or each bidder
  at the end
    result                prices and awards of a closed auction
    return                return the box: every byte of it becomes zero
  apart from any auction
    read N HEX            a card of N products as a bid
    write N B R T LOTS P ..
                          a bid of bidder B in round R as a card of N products
  the desk itself
    bail on, bail off     end at the first line that is not answered ok, or go on
    quit, exit            end
    help, ?               these lines
  also: help round, help order, help example, help lots, help units, help letters, help refusals
  answers: ok, done; refused, with its number and why; error, the line is no command.
  Only what is answered ok changes the box. A line that begins with # is a remark.
  help COMMAND says more
",
];

// `ok`, and the texts of a page.
fn put_page(out: &mut [u8; ANSWER], page: &[&[u8]]) -> usize {
    let mut to = put(out, 0, b"ok\n");
    for text in page {
        to = put(out, to, text);
    }
    to
}

pub fn put_all(out: &mut [u8; ANSWER]) -> usize {
    put_page(out, COMMANDS)
}

// The page of a command or a topic, by its word.
fn page_of(word: &[u8]) -> Option<&'static [&'static [u8]]> {
    let page = match word {
        b"bid" => filing::BID,
        b"file" => filing::FILE,
        b"count" => filing::COUNT,
        b"missing" => filing::MISSING,
        b"filed" => filing::FILED,
        b"calculate" => rounds::CALCULATE,
        b"undo" => rounds::UNDO,
        b"show" => rounds::SHOW,
        b"report" => rounds::REPORT,
        b"open" => auction::OPEN,
        b"name" => auction::NAME,
        b"names" => auction::NAMES,
        b"suggest" => auction::SUGGEST,
        b"cutback" => auction::CUTBACK,
        b"result" => auction::RESULT,
        b"return" => auction::RETURN,
        b"read" => cards::READ,
        b"write" => cards::WRITE,
        b"bail" => desk::BAIL,
        b"quit" | b"exit" => desk::QUIT,
        b"help" | b"?" => desk::HELP,
        b"units" => topics::UNITS,
        b"letters" => topics::LETTERS,
        b"refusals" => refusals::REFUSALS,
        b"round" => topics::ROUND,
        b"order" => topics::ORDER,
        b"example" => topics::EXAMPLE,
        b"lots" => topics::LOTS,
        _ => return None,
    };
    Some(page)
}

// The answer to `help WORD`: its length, where there is a page of that word.
pub fn put_help(out: &mut [u8; ANSWER], word: &[u8]) -> Option<usize> {
    Some(put_page(out, page_of(word)?))
}
