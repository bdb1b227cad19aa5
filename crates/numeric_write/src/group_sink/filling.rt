// Digits into groups.
ghost use Rattle.std.specs.Prelude.{◌≡◌, ℕ, ◌+◌, ◌-◌, ◌*◌, ◌/◌, ◌%◌, ◌^◌, ◌<◌, ◌≤◌, min, List, [], ◌∷◌, length, if◌then◌else◌, nat_lt};
ghost use Rattle.division.specs.Sink.{Takes};
ghost use Rattle.division.specs.Sinks.{Stands};
ghost use Rattle.numeric_write.specs.Laid.{Laid, Finished, held, filler};
ghost use Rattle.numeric_write.specs.Going.{goes_order};
ghost use Rattle.numeric_write.specs.Sink.{groups};
ghost use Rattle.numeric_write.specs.declared.group_state.GroupState.TheVariants.{Spent};

use crate::group_sink::GroupSink;
use crate::group_state::GroupState;
use crate::header::put_word;
use division::sink::{Answer, DigitSink};

// The state after a digit, with that many left.
fn after(state: GroupState, left: u16) -> GroupState
    ensures { result ≡ (if nat_lt 0 left then state else Spent) }
{
    if 0 < left { state } else { GroupState::Spent }
}

// The places that are taken of the first group: of a sink for no digit, none.
fn first_places(places: u8, left: u16) -> u8
    ensures { result ≡ (if nat_lt 0 left then places % 4 else 0) }
{
    if 0 < left { places % 4 } else { 0 }
}

impl<'a> GroupSink<'a> {
    // A sink for that many digits, or for as many as the buffer has room for. Of the first group some places are taken by zeros,
    // so that the last digit of a whole part ends a group.
    pub fn new(buffer: &'a mut [u8], places: u8, digits: u16) -> GroupSink<'a>
        ensures begins { Stands groups result 0 (min digits (4 * (length buffer.old / 2) - places % 4)) 0 }
        ensures places { 0 < result.left → result.places ≡ places % 4 }
        ensures buffer { (result.buffer.now ≡ buffer.old) × (result.buffer.ghost_name ≡ buffer.entry.ghost_name) × (result.count ≡ 0) }
    {
        let room = (buffer.len() / 2 * 4).saturating_sub(usize::from(places % 4));
        let left = usize::from(digits).min(room) as u16;
        GroupSink {
            buffer,
            count: 0,
            group: 0,
            places: first_places(places, left),
            taken: 0,
            left,
            state: after(GroupState::Skipping, left),
        }
    }

    // A zero before any other digit.
    fn skip(&mut self)
        requires left { 0 < self.old.left }
        requires empty { (self.old.count ≡ 0) × (self.old.group ≡ 0) }
        ensures { Takes groups self.old (0 ∷ []) self.new }
    {
        let left = self.left - 1;
        self.places = (self.places + 1) % 4;
        self.taken += 1;
        self.left = left;
        self.state = after(GroupState::Skipping, left);
    }

    // Fills the group with a digit; a zero only where another digit has come.
    fn fill(&mut self, digit: u8)
        requires digit { digit < 10 }
        requires left { 0 < self.old.left }
        requires first { self.old.count ≡ 0 → 0 < self.old.group + digit }
        ensures { Takes groups self.old (digit ∷ []) self.new }
    {
        let left = self.left - 1;
        let state = after(GroupState::Filling, left);
        let group = self.group * 10 + u16::from(digit);
        if self.places < 3 {
            self.group = group;
            self.places += 1;
        } else {
            put_word(self.buffer, 2 * self.count, group);
            self.count += 1;
            self.group = 0;
            self.places = 0;
        }
        self.taken += 1;
        self.left = left;
        self.state = state;
    }

    // Fills the last group with zeros on the right, and ends the sink.
    pub fn finish(self)
        ensures { (before : List ℕ) → Laid before self.entry.buffer.now self.entry.count → Finished before self.exit.0.now (groups.held self.entry * 10 ^ filler self.entry.places) }
    {
        let GroupSink {
            buffer,
            count,
            group,
            places,
            taken: _,
            left: _,
            state: _,
        } = self;
        if 0 < places {
            put_last(buffer, count, filled(group, places));
        }
    }
}

// A group of which some places are taken, with zeros in the others.
fn filled(group: u16, places: u8) -> u16
    requires { (group < 10 ^ places) × ((0 < places) × (places < 4)) }
    ensures { (result ≡ group * 10 ^ filler places) × (result < 10000) }
{
    match places {
        1 => group * 1_000,
        2 => group * 100,
        _ => group * 10,
    }
}

// Puts the last group behind the others, unless it is a zero before any other.
fn put_last(buffer: &mut [u8], count: usize, last: u16)
    requires room { 2 * count + 2 ≤ length buffer.old }
    requires small { last < 10000 }
    ensures { (before : List ℕ) → Laid before buffer.old count → Finished before buffer.new (held buffer.old count 4 last) }
{
    if count == 0 && last == 0 {
        return;
    }
    put_word(buffer, 2 * count, last);
}

impl<'a> DigitSink for GroupSink<'a> {
    ghost taken = { groups.taken };

    ghost left = { groups.left };

    ghost held = { groups.held };

    ghost step = { groups.step };

    ghost on = { groups.on };

    fn offer(&mut self, digit: u8) -> Answer {
        let left = self.left;
        match (self.state, digit) {
            (_, 10..) => return Answer::NotDigit,
            (GroupState::Spent, _) => return Answer::Full,
            (GroupState::Skipping, 0) => self.skip(),
            (GroupState::Skipping | GroupState::Filling, _) => self.fill(digit),
        }
        Answer::taking(left)
    }

    fn taken(&self) -> u16 {
        self.taken
    }

    fn left(&self) -> u16 {
        self.left
    }

    ghost bounded = { λ s. s.bound };

    ghost order = { goes_order };
}
