// Walking portion by portion: renew, choose, charge so many ticks at once, and note the portion.
ghost use Rattle.std.specs.Prelude.{◌&&◌, ◌≡◌, ◌+◌, ◌≤◌, ◌<◌, ◌^◌, ltb, map, replicate, take};
ghost use Rattle.std.proofs.Math.Seq.{slice};
ghost use Rattle.laws.specs.Lists.{padded};
ghost use Rattle.rules.specs.Calls.{portion_of};
ghost use Rattle.rules.specs.Limits.{spare_places, line_places, last_tick};
ghost use Rattle.rules.specs.Lines.{line};
ghost use Rattle.rules.specs.Places.{model, spare_of, no_spare_place};
ghost use Rattle.rules.specs.Steps.{use_of};
ghost use Rattle.rules.specs.Walks.{declared_use, line_place, no_line, Walked};
ghost use Rattle.engine_choice.specs.Clauses.{first_of};
ghost use Rattle.engine_time.specs.Inner.{placed, begun_from, started_at, later_by, walk_of};

use crate::charges::{ran, spent};
use crate::dues::{due_of, dues_of, soonest, start_of};
use crate::renewal::{guests_renewed, renewed};
use engine_choice::{Charge, charge_of, portion_for};
use engine_sound::Sound;
use rules::{
    GUEST_PLACES, Guest, LINE_PLACES, Line, Portion, SPARE_PLACES, Spare, State, Use, Walk,
};

// Where a walk stands: the tick, the ticks left, the processor's tallies, how many spares are spent, and who ran last.
#[derive(Clone, Copy)]
pub(crate) struct Clock {
    pub(crate) now: u64,
    pub(crate) left: u64,
    pub(crate) burned: u64,
    pub(crate) empty: u64,
    pub(crate) head: usize,
    pub(crate) last: usize,
}

// No tick, no renewal.
fn begun(s: Sound<'_>, k: u64) -> [Guest; GUEST_PLACES]
    ensures { result ≡ placed (begun_from k (model s.entry.state.now)).guests }
{
    if k == 0 {
        return s.state.guests;
    }
    guests_renewed(s)
}

// The first spare that is not spent, where there is one.
pub(crate) fn first_left(
    spares: &[Spare; SPARE_PLACES],
    head: usize,
    listed: usize,
) -> Option<Spare>
    requires { (head ≤ listed) × (listed ≤ spare_places) }
    ensures { first_of result ≡ map spare_of (take 1 (slice head listed spares.now)) }
{
    spares[head..listed].first().copied()
}

// Its place, or any place where all are spent: what is stored there is then what stood there.
fn spare_place(head: usize) -> usize
    ensures { (result < spare_places) × (head < spare_places → result ≡ head) }
{
    if head < SPARE_PLACES { head } else { 0 }
}

fn later(h: Clock, c: Charge) -> Clock
    requires { (c.ticks ≤ h.left) × (h.now + c.ticks < 2 ^ 64) × (h.burned + c.burned < 2 ^ 64) × (h.empty + c.empty < 2 ^ 64) × (h.head + c.removed < 2 ^ 64) }
    ensures { result ≡ later_by c h }
{
    Clock {
        now: h.now + c.ticks,
        left: h.left - c.ticks,
        burned: h.burned + c.burned,
        empty: h.empty + c.empty,
        head: h.head + c.removed,
        last: c.guest,
    }
}

fn used_by(portion: Portion) -> Use
    ensures { result ≡ declared_use (use_of (portion_of portion)) }
{
    match portion {
        Portion::Run(i, source, _, _) => Use::Run(i, source),
        Portion::Burn(owner, _, _) => Use::Burn(owner),
        Portion::Nothing => Use::Nothing,
    }
}

fn goes_on(left: u64, shown: usize) -> bool
    ensures { result ≡ ltb 0 left && ltb shown line_places }
{
    0 < left && shown < LINE_PLACES
}

// The spares from the first that is not spent, moved to the front.
fn spares_left(spares: &[Spare; SPARE_PLACES], head: usize, listed: usize) -> [Spare; SPARE_PLACES]
    requires { (head ≤ listed) × (listed ≤ spare_places) }
    ensures { result ≡ padded spare_places no_spare_place (slice head listed spares.now) }
{
    let mut left = [Spare::default(); SPARE_PLACES];
    left[..listed - head].copy_from_slice(&spares[head..listed]);
    left
}

fn no_lines() -> [Line; LINE_PLACES]
    ensures { result ≡ replicate line_places no_line }
{
    let none = Line {
        first: 0,
        end: 0,
        used: Use::Nothing,
    };
    [none; LINE_PLACES]
}

fn line_of(portion: Portion, first: u64, ticks: u64) -> Line
    requires { first + ticks < 2 ^ 64 }
    ensures { result ≡ line_place (line first (first + ticks) (use_of (portion_of portion))) }
{
    Line {
        first,
        end: first + ticks,
        used: used_by(portion),
    }
}

fn started(s: State, k: u64) -> Clock
    ensures { result ≡ started_at s k }
{
    Clock {
        now: s.now,
        left: k,
        burned: s.burned,
        empty: s.empty,
        head: 0,
        last: 0,
    }
}

// What a walk gives back of where it stands.
fn walk_of(
    s: State,
    guests: [Guest; GUEST_PLACES],
    spares: [Spare; SPARE_PLACES],
    lines: [Line; LINE_PLACES],
    h: Clock,
    shown: usize,
) -> Walk
    requires { (h.head ≤ s.listed) × (s.listed ≤ spare_places) }
    ensures { result ≡ walk_of s guests spares lines h shown }
{
    let state = State {
        now: h.now,
        guests,
        listed: s.listed - h.head,
        spares: spares_left(&spares, h.head, s.listed),
        burned: h.burned,
        empty: h.empty,
        ..s
    };
    Walk {
        state,
        left: h.left,
        shown,
        lines,
    }
}

// Soundness is not tested here, so that an advance of many walks tests it once. Who is active does not change on the way, so the lowest
// active guest is found once.
pub(crate) fn walked(s: Sound<'_>, k: u64) -> Walk
    requires { s.state.now.now + k ≤ last_tick }
    ensures { Walked s.entry.state.now k (Ok result) }
{
    let mut guests = begun(s, k);
    let s = s.state;
    let from = start_of(engine_choice::lowest(guests, s.table.count), s.table.count);
    let mut dues = dues_of(guests);
    let mut spares = s.spares;
    let mut lines = no_lines();
    let mut h = started(*s, k);
    let mut shown = 0;
    while goes_on(h.left, shown) {
        let r = renewed(s.table.entries[h.last], guests[h.last]);
        guests[h.last] = r;
        dues[h.last] = due_of(r);
        let soon = soonest(&dues, from, s.table.count);
        let pick = engine_choice::ready(soon, guests[soon]);
        let at = spare_place(h.head);
        let portion = portion_for(pick, first_left(&spares, h.head, s.listed));
        let c = charge_of(portion, h.left, h.last);
        guests[c.guest] = ran(guests[c.guest], c);
        spares[at] = spent(spares[at], c);
        lines[shown] = line_of(portion, h.now, c.ticks);
        h = later(h, c);
        shown += 1;
    }
    walk_of(*s, guests, spares, lines, h, shown)
}
