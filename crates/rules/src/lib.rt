// The words of documents 01 and 02 as types, with the small methods that belong to them. What they mean stands in specs/, in the
// order of document 01.
#![tactic(auto)]

ghost use Rattle.std.specs.Prelude.{◌≡◌, ◌+◌, ◌-◌, ◌≤◌, ◌<◌, min};
ghost use Rattle.rules.specs.Units.{kwh, mw_day, unit_number, unit_of, amount_of, price_of};
ghost use Rattle.rules.specs.Allowed.{limits, allows};
ghost use Rattle.rules.specs.Answers.{phase_of, number_of};
ghost use Rattle.rules.specs.Lots.{no_lot, no_lots, count_of, one_lot, lot_at, put, total, first_used, last_used, lowest, highest, leads, follows, exit_fits, exits_fit, lot_zero, lots_zero, fewer, take_first, retain_at, outbid_lot, outbid_last};
ghost use Rattle.rules.specs.Card.{no_line, line_zero};
ghost use Rattle.rules.specs.Held.{nothing, going_in, denied_in, retained_in, held_in, kept_in, retained, denied, cancelled, deemed, switch_outbid, withdrawal_outbid, set_to};
ghost use Rattle.rules.specs.Legal.{record_zero};
ghost use Rattle.rules.specs.Accept.{leaving_of, moving_of, rise_of, retain, deny, cancel, deem, outbid_switch, outbid_withdrawal};
ghost use Rattle.rules.specs.Price.{fallen, price_fallen, override_limits, override_fits};
ghost use Rattle.rules.specs.Report.{range_of};

// ---- Counters kept apart

#[derive(Clone, Copy)]
pub struct Tranches(pub u16);

// Thousandths of a cent per kWh.
#[derive(Clone, Copy)]
pub struct KwhPrice(pub u32);

// Cents per MW-day.
#[derive(Clone, Copy)]
pub struct MwDayPrice(pub u32);

#[derive(Clone, Copy)]
pub struct BasisPoints(pub u16);

#[derive(Clone, Copy)]
pub enum Unit {
    Kwh,
    MwDay,
}

// A price of either unit: the units are not mixed without a match.
#[derive(Clone, Copy)]
pub enum Price {
    Kwh(KwhPrice),
    MwDay(MwDayPrice),
}

impl Unit {
    pub fn number(self) -> u8
        ensures { (result ≡ unit_number self) × (result ≤ 1) }
    {
        match self {
            Unit::Kwh => 0,
            Unit::MwDay => 1,
        }
    }
}

// The cut is p x decrement / 10,000, rounded half up, at least 1.
fn after_cut(amount: u32, by: BasisPoints) -> u32
    ensures { (result ≡ fallen amount by.0) × (result ≤ amount) }
{
    let cut = (amount as u64 * by.0 as u64 + 5000) / 10000;
    if cut < 1 {
        return less(amount, 1);
    }
    less(amount, cut)
}

// a less b, and 0 where b is more.
fn less(a: u32, b: u64) -> u32
    ensures { (result ≡ a - b) × (result ≤ a) }
{
    if a as u64 <= b {
        return 0;
    }
    (a as u64 - b) as u32
}

impl KwhPrice {
    pub fn fall(self, by: BasisPoints) -> KwhPrice
        ensures { result ≡ kwh (fallen self.0 by.0) }
    {
        KwhPrice(after_cut(self.0, by))
    }
}

impl MwDayPrice {
    pub fn fall(self, by: BasisPoints) -> MwDayPrice
        ensures { result ≡ mw_day (fallen self.0 by.0) }
    {
        MwDayPrice(after_cut(self.0, by))
    }
}

impl Price {
    pub fn of(unit: u8, amount: u32) -> Price
        ensures { result ≡ price_of unit amount }
    {
        if unit == 0 {
            return Price::Kwh(KwhPrice(amount));
        }
        Price::MwDay(MwDayPrice(amount))
    }

    pub fn unit(self) -> u8
        ensures { (result ≡ unit_of self) × (result ≤ 1) }
    {
        match self {
            Price::Kwh(_) => 0,
            Price::MwDay(_) => 1,
        }
    }

    pub fn amount(self) -> u32
        ensures { result ≡ amount_of self }
    {
        match self {
            Price::Kwh(x) => x.0,
            Price::MwDay(x) => x.0,
        }
    }

    // The price after its cut, in the same unit.
    pub fn fall(self, by: BasisPoints) -> Price
        ensures { result ≡ price_fallen self by.0 }
    {
        match self {
            Price::Kwh(x) => Price::Kwh(x.fall(by)),
            Price::MwDay(x) => Price::MwDay(x.fall(by)),
        }
    }
}

// An array holds a price inside this struct.
#[derive(Clone, Copy)]
pub struct Quote {
    pub price: Price,
}

// ---- Document 02, request 1: "an optional decrement", the manager's for one product in one calculation

// "1 to 1,000 basis points".
pub fn override_limits() -> Limits
    ensures { result ≡ override_limits }
{
    Limits {
        least: 1,
        most: 1000,
    }
}

// None is no override, and fits.
pub fn override_fits(given: Option<BasisPoints>) -> bool
    ensures { result ≡ override_fits given }
{
    match given {
        None => true,
        Some(by) => override_limits().holds(by.0 as u32),
    }
}

// A price, "with whether it was overridden".
#[derive(Clone, Copy)]
pub struct GoingPrice {
    pub price: Price,
    pub overridden: bool,
}

// ---- What a number may be

// From the least to the most, both with it; nothing where the least is above the most.
#[derive(Clone, Copy)]
pub struct Limits {
    pub least: u32,
    pub most: u32,
}

impl Limits {
    pub fn holds(self, x: u32) -> bool
        ensures { result ≡ allows self x }
    {
        (self.least <= x) & (x <= self.most)
    }

    // And at most this.
    #[tactic(auto, using(std::proofs::lemmas::Bool::Decides::nat_tests))]
    pub fn under(self, most: u32) -> Limits
        ensures { result ≡ limits self.least (min self.most most) }
    {
        if self.most <= most {
            return self;
        }
        Limits {
            least: self.least,
            most,
        }
    }
}

// ---- Settings, as a manager gives them

#[derive(Clone, Copy)]
pub struct Product {
    pub target: Tranches,
    pub cap: Tranches,
    pub start: Price,
}

// A decrement row: from this percentage on, this decrement.
#[derive(Clone, Copy)]
pub struct Row {
    pub percent: u16,
    pub decrement: BasisPoints,
}

#[derive(Clone, Copy)]
pub struct Settings {
    pub unit: Unit,
    pub products: u8,
    pub bidders: u8,
    pub rows: u8,
    pub statewide: Tranches,
    pub product: [Product; 8],
    pub eligibility: [Tranches; 32],
    pub row: [Row; 8],
}

// ---- The bid card

// Tranches at one exit price: withdrawn on a card, retained in a record.
#[derive(Clone, Copy)]
pub struct Lot {
    pub count: Tranches,
    pub exit: u32,
}

impl Lot {
    pub fn none() -> Lot
        ensures { result ≡ no_lot }
    {
        Lot {
            count: Tranches(0),
            exit: 0,
        }
    }

    pub fn is_zero(self) -> bool
        ensures { result ≡ lot_zero self }
    {
        (self.count.0 == 0) & (self.exit == 0)
    }

    // The first lot is used, or zero.
    pub fn leads(self) -> bool
        ensures { result ≡ leads self }
    {
        if 0 < self.count.0 {
            return true;
        }
        self.exit == 0
    }

    // A lot after another is used only where that one is, at a higher price; or it is zero.
    pub fn follows(self, x: Lot) -> bool
        ensures { result ≡ follows x self }
    {
        if self.count.0 <= 0 {
            return self.exit == 0;
        }
        (0 < x.count.0) & (x.exit < self.exit)
    }

    // p < x <= q where it is used.
    pub fn exit_fits(self, p: u32, q: u32) -> bool
        ensures { result ≡ exit_fits p q self }
    {
        if 0 < self.count.0 {
            return (p < self.exit) & (self.exit <= q);
        }
        true
    }

    // One less; the price stays.
    fn fewer(self) -> Lot
        requires { 0 < count_of self }
        ensures { result ≡ fewer self }
    {
        Lot {
            count: Tranches(self.count.0 - 1),
            exit: self.exit,
        }
    }

    // One less, and the price is 0 where none is left.
    #[tactic(auto, using(std::proofs::lemmas::Bool::Decides::nat_tests))]
    fn outbid(self) -> Lot
        ensures { result ≡ outbid_lot self }
    {
        if 1 < self.count.0 {
            return self.fewer();
        }
        Lot::none()
    }
}

// "Prices strictly rise, used lots come first, unused ones are zero."
#[derive(Clone, Copy)]
pub struct Lots {
    pub one: Lot,
    pub two: Lot,
    pub three: Lot,
    pub four: Lot,
}

impl Lots {
    pub fn none() -> Lots
        ensures { result ≡ no_lots }
    {
        Lots {
            one: Lot::none(),
            two: Lot::none(),
            three: Lot::none(),
            four: Lot::none(),
        }
    }

    // One lot at one price; no lot where there is nothing at it.
    pub fn single(count: Tranches, exit: u32) -> Lots
        ensures { result ≡ one_lot count.0 exit }
    {
        if count.0 == 0 {
            return Lots::none();
        }
        Lots {
            one: Lot { count, exit },
            two: Lot::none(),
            three: Lot::none(),
            four: Lot::none(),
        }
    }

    pub fn at(self, i: usize) -> Lot
        ensures { result ≡ lot_at self i }
    {
        if i == 0 {
            return self.one;
        }
        if i == 1 {
            return self.two;
        }
        if i == 2 {
            return self.three;
        }
        self.four
    }

    pub fn put(mut self, i: usize, l: Lot) -> Lots
        ensures { result ≡ put self i l }
    {
        if i == 0 {
            self.one = l;
            return self;
        }
        if i == 1 {
            self.two = l;
            return self;
        }
        if i == 2 {
            self.three = l;
            return self;
        }
        self.four = l;
        self
    }

    // "the sum of lot counts"
    pub fn total(self) -> u32
        ensures { (result ≡ total self) × (result ≤ 262140) }
    {
        self.one.count.0 as u32
            + self.two.count.0 as u32
            + self.three.count.0 as u32
            + self.four.count.0 as u32
    }

    pub fn is_zero(self) -> bool
        ensures { result ≡ lots_zero self }
    {
        let one = self.one.is_zero();
        let two = self.two.is_zero();
        let three = self.three.is_zero();
        let four = self.four.is_zero();
        one & (two & (three & four))
    }

    // The first used lot: that with the lowest price.
    #[tactic(auto, using(std::proofs::lemmas::Bool::Decides::nat_tests), unfolding(crate::specs::Lots::first_used))]
    pub fn first(self) -> usize
        ensures { result ≡ first_used self }
    {
        if 0 < self.one.count.0 {
            return 0;
        }
        if 0 < self.two.count.0 {
            return 1;
        }
        if 0 < self.three.count.0 {
            return 2;
        }
        3
    }

    pub fn lowest(self) -> u32
        ensures { result ≡ lowest self }
    {
        let l = self.at(self.first());
        l.exit
    }

    // The last used lot: that with the highest price.
    #[tactic(auto, using(std::proofs::lemmas::Bool::Decides::nat_tests), unfolding(crate::specs::Lots::last_used))]
    pub fn last(self) -> usize
        ensures { result ≡ last_used self }
    {
        if 0 < self.four.count.0 {
            return 3;
        }
        if 0 < self.three.count.0 {
            return 2;
        }
        if 0 < self.two.count.0 {
            return 1;
        }
        0
    }

    pub fn highest(self) -> u32
        ensures { result ≡ highest self }
    {
        let l = self.at(self.last());
        l.exit
    }

    // 12: "each price, the order and the zero lots".
    pub fn exits_fit(self, p: u32, q: u32) -> bool
        ensures { result ≡ exits_fit p q self }
    {
        let leads = self.one.leads();
        let second = self.two.follows(self.one);
        let third = self.three.follows(self.two);
        let fourth = self.four.follows(self.three);
        let one = self.one.exit_fits(p, q);
        let two = self.two.exit_fits(p, q);
        let three = self.three.exit_fits(p, q);
        let four = self.four.exit_fits(p, q);
        (leads & (second & (third & fourth))) & (one & (two & (three & four)))
    }

    // "Keeping takes the lowest price first".
    pub fn take_first(self) -> Lots
        requires { 0 < total self }
        ensures { result ≡ take_first self }
    {
        let i = self.first();
        let l = self.at(i);
        self.put(i, l.fewer())
    }

    // One more in the lot at place i, at its price.
    pub fn retain_at(self, i: usize, exit: u32) -> Lots
        requires { total self < 65535 }
        ensures { result ≡ retain_at self i exit }
    {
        let l = self.at(i);
        let one = Lot {
            count: Tranches(l.count.0 + 1),
            exit,
        };
        self.put(i, one)
    }

    // "outbidding the highest".
    pub fn outbid_last(self) -> Lots
        ensures { result ≡ outbid_last self }
    {
        let i = self.last();
        let l = self.at(i);
        self.put(i, l.outbid())
    }
}

// A card's fields for one product.
#[derive(Clone, Copy)]
pub struct Line {
    pub tranches: Tranches,
    pub withdrawn: Lots,
    pub priority: u8,
}

impl Line {
    pub fn none() -> Line
        ensures { result ≡ no_line }
    {
        Line {
            tranches: Tranches(0),
            withdrawn: Lots::none(),
            priority: 0,
        }
    }

    pub fn is_zero(self) -> bool
        ensures { result ≡ line_zero self }
    {
        let none = self.withdrawn.is_zero();
        (self.tranches.0 == 0) & (none & (self.priority == 0))
    }
}

// Whose bid a card is, and of which round.
#[derive(Clone, Copy)]
pub struct Bid {
    pub bidder: u8,
    pub round: u16,
}

// "A card read is either a bid or a numbered refusal", with the bid's lines beside it.
#[derive(Clone, Copy)]
pub struct CardRead {
    pub card: Result<Bid, Refusal>,
    pub lines: [Line; 8],
}

// ---- What is held

// One bidder on one product: g at the going price, d denied switches, r retained withdrawals, "kept per lot".
#[derive(Clone, Copy)]
pub struct Record {
    pub going: Tranches,
    pub denied: Tranches,
    pub retained: Lots,
}

// The record of one bidder on one product is changed and handed back.
impl Record {
    pub fn none() -> Record
        ensures { result ≡ nothing }
    {
        Record {
            going: Tranches(0),
            denied: Tranches(0),
            retained: Lots::none(),
        }
    }

    pub fn held(self) -> u32
        ensures { (result ≡ held_in self) × (result ≤ 393210) }
    {
        self.going.0 as u32 + self.denied.0 as u32 + self.retained.total()
    }

    pub fn kept(self) -> u32
        ensures { (result ≡ kept_in self) × (result ≤ 327675) }
    {
        self.denied.0 as u32 + self.retained.total()
    }

    pub fn is_zero(self) -> bool
        ensures { result ≡ record_zero self }
    {
        let none = self.retained.is_zero();
        (self.going.0 == 0) & ((self.denied.0 == 0) & none)
    }

    // A withdrawal of the card's lot at place i is retained in the same lot, at its exit price.
    pub fn retain(mut self, i: usize, exit: u32) -> Record
        requires { retained_in self < 65535 }
        ensures { result ≡ retained self i exit }
    {
        let l = self.retained.retain_at(i, exit);
        self.retained = l;
        self
    }

    // A switch is denied.
    pub fn keep(mut self) -> Record
        requires { denied_in self < 65535 }
        ensures { result ≡ denied self }
    {
        let n = self.denied.0 + 1;
        self.denied.0 = n;
        self
    }

    // An increase is cancelled.
    pub fn cancel(mut self) -> Record
        requires { 0 < going_in self }
        ensures { result ≡ cancelled self }
    {
        let n = self.going.0 - 1;
        self.going.0 = n;
        self
    }

    // The denied switches are deemed bid at the going price.
    pub fn deem(mut self) -> Record
        requires { going_in self + denied_in self ≤ 65535 }
        ensures { result ≡ deemed self }
    {
        let n = self.going.0 + self.denied.0;
        self.going.0 = n;
        self.denied.0 = 0;
        self
    }

    // A denied switch is outbid.
    pub fn outbid_switch(mut self) -> Record
        requires { 0 < denied_in self }
        ensures { result ≡ switch_outbid self }
    {
        let n = self.denied.0 - 1;
        self.denied.0 = n;
        self
    }

    // A retained withdrawal is outbid, that of the highest exit price.
    pub fn outbid_withdrawal(mut self) -> Record
        ensures { result ≡ withdrawal_outbid self }
    {
        let l = self.retained.outbid_last();
        self.retained = l;
        self
    }

    // A bidder above a reduced cap is set to it.
    pub fn set_to(mut self, cap: Tranches) -> Record
        ensures { result ≡ set_to self cap.0 }
    {
        if self.going.0 > cap.0 {
            self.going.0 = cap.0;
            return self;
        }
        self
    }

    // The tranches above the cap.
    pub fn above(self, cap: Tranches) -> u32
        ensures { (result ≡ going_in self - cap.0) × (result ≤ going_in self) }
    {
        if self.going.0 > cap.0 {
            return (self.going.0 - cap.0) as u32;
        }
        0
    }
}

// ---- The whole state, in the order and grouping of its bytes

// What an auction has one of: amounts are in its one unit.
#[derive(Clone, Copy)]
pub struct Terms {
    pub unit: u8,
    pub products: u8,
    pub bidders: u8,
    pub statewide: Tranches,
}

// One product: its settings, the going price p, the price q before its latest fall, and 1 where p was overridden.
#[derive(Clone, Copy)]
pub struct Lane {
    pub target: Tranches,
    pub cap: Tranches,
    pub start: u32,
    pub price: u32,
    pub before: u32,
    pub mark: u8,
}

// One bidder: its initial eligibility, and f.
#[derive(Clone, Copy)]
pub struct Seat {
    pub initial: Tranches,
    pub free: Tranches,
}

// A decrement table: the rows in use, and the rows.
#[derive(Clone, Copy)]
pub struct Decrements {
    pub rows: u8,
    pub row: [Row; 8],
}

// Who has filed, and the lines filed.
#[derive(Clone, Copy)]
pub struct Cards {
    pub filed: u32,
    pub lines: [Line; 256],
}

// A record or a line of bidder b on product p stands at b * 8 + p.
#[derive(Clone, Copy)]
pub struct Auction {
    pub phase: u8,
    pub round: u16,
    pub terms: Terms,
    pub lanes: [Lane; 8],
    pub seats: [Seat; 32],
    pub decrements: Decrements,
    pub records: [Record; 256],
    pub cards: Cards,
}

// ---- The settings in the state, as a value

// One product's settings.
#[derive(Clone, Copy)]
pub struct Item {
    pub target: Tranches,
    pub cap: Tranches,
    pub start: u32,
}

#[derive(Clone, Copy)]
pub struct Setup {
    pub terms: Terms,
    pub item: [Item; 8],
    pub eligibility: [Tranches; 32],
    pub decrements: Decrements,
}

#[derive(Clone, Copy)]
pub enum Phase {
    Issued,
    Open,
    Closed,
    Stopped,
}

// The phases by the state's first byte; an issued state has 0 there.
pub const OPEN: u8 = 1;

pub const CLOSED: u8 = 2;

pub const STOPPED: u8 = 3;

impl Phase {
    pub fn of(number: u8) -> Phase
        ensures { result ≡ phase_of number }
    {
        if number == 0 {
            return Phase::Issued;
        }
        if number == OPEN {
            return Phase::Open;
        }
        if number == CLOSED {
            return Phase::Closed;
        }
        Phase::Stopped
    }
}

// ---- Calculating

// One bidder on one product while a round is calculated: its record, and of its bid the withdrawals not kept,
// the switches not denied and the increases not cancelled.
#[derive(Clone, Copy)]
pub struct Place {
    pub holds: Record,
    pub leaving: Lots,
    pub moving: Tranches,
    pub rise: Tranches,
    pub priority: u8,
}

impl Place {
    // One withdrawal not kept, of the lowest exit price, becomes a retained one at that price.
    pub fn retain(mut self) -> Place
        requires { (0 < leaving_of self) × (retained_in self.holds < 65535) }
        ensures { result ≡ retain self }
    {
        let i = self.leaving.first();
        let l = self.leaving.at(i);
        let left = self.leaving.take_first();
        let h = self.holds.retain(i, l.exit);
        self.holds = h;
        self.leaving = left;
        self
    }

    // One switch not denied becomes a denied one.
    pub fn keep(mut self) -> Place
        requires { (0 < moving_of self) × (denied_in self.holds < 65535) }
        ensures { result ≡ deny self }
    {
        let n = self.moving.0 - 1;
        let h = self.holds.keep();
        self.holds = h;
        self.moving.0 = n;
        self
    }

    // One increase is cancelled.
    pub fn cancel(mut self) -> Place
        requires { (0 < rise_of self) × (0 < going_in self.holds) }
        ensures { result ≡ cancel self }
    {
        let n = self.rise.0 - 1;
        let h = self.holds.cancel();
        self.holds = h;
        self.rise.0 = n;
        self
    }

    pub fn deem(mut self) -> Place
        requires { going_in self.holds + denied_in self.holds ≤ 65535 }
        ensures { result ≡ deem self }
    {
        let h = self.holds.deem();
        self.holds = h;
        self
    }

    pub fn outbid_switch(mut self) -> Place
        requires { 0 < denied_in self.holds }
        ensures { result ≡ outbid_switch self }
    {
        let h = self.holds.outbid_switch();
        self.holds = h;
        self
    }

    pub fn outbid_withdrawal(mut self) -> Place
        ensures { result ≡ outbid_withdrawal self }
    {
        let h = self.holds.outbid_withdrawal();
        self.holds = h;
        self
    }
}

// After step 2, with the count of tranches kept.
#[derive(Clone, Copy)]
pub struct Kept {
    pub places: [Place; 256],
    pub count: u32,
}

// After step 4, with the count of tranches outbid.
#[derive(Clone, Copy)]
pub struct Outbid {
    pub places: [Place; 256],
    pub free: [Tranches; 32],
    pub count: u32,
}

#[derive(Clone, Copy)]
pub struct Calculated {
    pub auction: Auction,
    pub kept: u32,
    pub outbid: u32,
}

// ---- Answers: each call's own, or why it is refused

// "Numbers answered": why a call is refused. Each has one number.
#[derive(Clone, Copy, PartialEq, Eq)]
pub enum Refusal {
    // 1: "state length wrong"
    StateLength,
    // 2: "state neither issued nor standing"
    NotStanding,
    // 3: "bids not open (for report: issued)"
    NotOpen,
    // 4: "card length, or the room lent for a card, wrong"
    CardLength,
    // 5: "filling bits not zero"
    Filling,
    // 6: "no such bidder"
    NoBidder,
    // 7: "other round"
    OtherRound,
    // 8: "some b + d + r above the product cap"
    AboveCap,
    // 9: "a reduction on a product that didn't tick"
    Reduced,
    // 10: "sum of b above sum of g + f"
    AboveEligibility,
    // 11: "withdrawn above R on a product, or total not w"
    Withdrawn,
    // 12: "withdrawn > 0 and exit not in p < x <= q; or withdrawn = 0 and exit not 0"
    ExitPrice,
    // 13: "s > 0 and increased products not numbered 1 to k once each, others 0; or s = 0 and a priority not 0"
    Priorities,
    // 14: "draw order wrong"
    Draw,
    // 15: "a setting outside the above"
    Setting,
    // 16: "auction not closed"
    NotClosed,
    // 17: "a state byte isn't zero"
    NotIssued,
    // 18: "open in round 1"
    RoundOne,
    // 19: "an override outside 1 to 1,000"
    Override,
    // 20: "any condition not met"
    Cutback,
    // 23: "the product order isn't each product once"
    Order,
    // 29: "product count not 1 to 8"
    ProductCount,
    // 30: "a field too large for its bits, or not 0 past the count"
    Field,
    // 31: of a suggested volume
    Suggestion,
}

impl Refusal {
    pub fn number(self) -> u8
        ensures { (result ≡ number_of self) × (0 < result) }
    {
        match self {
            Refusal::StateLength => 1,
            Refusal::NotStanding => 2,
            Refusal::NotOpen => 3,
            Refusal::CardLength => 4,
            Refusal::Filling => 5,
            Refusal::NoBidder => 6,
            Refusal::OtherRound => 7,
            Refusal::AboveCap => 8,
            Refusal::Reduced => 9,
            Refusal::AboveEligibility => 10,
            Refusal::Withdrawn => 11,
            Refusal::ExitPrice => 12,
            Refusal::Priorities => 13,
            Refusal::Draw => 14,
            Refusal::Setting => 15,
            Refusal::NotClosed => 16,
            Refusal::NotIssued => 17,
            Refusal::RoundOne => 18,
            Refusal::Override => 19,
            Refusal::Cutback => 20,
            Refusal::Order => 23,
            Refusal::ProductCount => 29,
            Refusal::Field => 30,
            Refusal::Suggestion => 31,
        }
    }
}

// "The calculation answers the count of tranches kept in step 2 and outbid in step 4."
#[derive(Clone, Copy)]
pub struct Calculation {
    pub kept: u32,
    pub outbid: u32,
}

#[derive(Clone, Copy)]
pub struct Range {
    pub low: u32,
    pub high: u32,
}

impl Range {
    // 0-20; 21-30; 31-40; then fives.
    pub fn of(excess: u32) -> Range
        requires { excess < 4000000000 }
        ensures { result ≡ range_of excess }
    {
        if excess <= 20 {
            return Range { low: 0, high: 20 };
        }
        if excess <= 30 {
            return Range { low: 21, high: 30 };
        }
        if excess <= 40 {
            return Range { low: 31, high: 40 };
        }
        let fives = (excess - 41) / 5 * 5;
        Range {
            low: 41 + fives,
            high: 45 + fives,
        }
    }
}

#[derive(Clone, Copy)]
pub struct Report {
    pub free: Tranches,
    pub phase: Phase,
    pub range: Range,
}

// A report's answer, with the bidder's own records and the going prices beside it.
#[derive(Clone, Copy)]
pub struct Reported {
    pub report: Result<Report, Refusal>,
    pub records: [Record; 8],
    pub prices: [GoingPrice; 8],
}

// The result's answer, with the awards of bidder b on product p at b * 8 + p and one price a product beside it.
#[derive(Clone, Copy)]
pub struct Awarded {
    pub award: Result<(), Refusal>,
    pub tranches: [Tranches; 256],
    pub prices: [Quote; 8],
}
