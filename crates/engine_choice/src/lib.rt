// The choice of a tick: the order of two spares, who is active, a guest as it may be picked, the portion that comes next, and what so many ticks on it
// charge to whom.
#![tactic(auto)]

ghost use Rattle.std.specs.Prelude.{◌≡◌, min};
ghost use Rattle.rules.specs.Model.{bit_of};
ghost use Rattle.engine_choice.specs.Choice.{shown};
ghost use Rattle.engine_choice.specs.Clauses.{OrderTold, MaskTold, OnesTold, LowestTold, ReadyTold, removed_by, blank, run_charge, PortionTold, ChargeTold};

use rules::{GUEST_PLACES, Guest, Portion, Source, Spare};

// Who is picked to run: a guest's number, its deadline and its current budget.
#[derive(Clone, Copy)]
pub struct Pick {
    pub guest: usize,
    pub deadline: u64,
    pub current: u64,
}

// By deadline, then by owner.
pub fn comes_before(x: Spare, y: Spare) -> bool
    ensures { OrderTold x y result }
{
    (x.deadline, x.owner) < (y.deadline, y.owner)
}

fn bit_of(g: Guest) -> u32
    ensures { result ≡ bit_of (shown g) }
{
    u32::from(g.jobs != 0)
}

// Bit i for guest i. Whatever the count is, no more guests are looked at than there are places.
pub fn mask_of(guests: &[Guest; GUEST_PLACES], count: usize) -> u32
    ensures { MaskTold guests.now count result }
{
    let mut mask = 0;
    for (i, g) in guests[..count.min(GUEST_PLACES)].iter().enumerate() {
        mask |= bit_of(*g) << i;
    }
    mask
}

// The number of active guests, where the mask is theirs.
pub fn ones_of(mask: u32) -> u32
    ensures { OnesTold mask result }
{
    u32::count_ones(mask)
}

// Guest i, where it is active.
#[tactic(auto, unfolding(crate::specs::Choice::pick_of))]
pub fn ready(i: usize, g: Guest) -> Option<Pick>
    ensures { ReadyTold i g result }
{
    if g.jobs == 0 {
        return None;
    }
    Some(Pick {
        guest: i,
        deadline: g.deadline,
        current: g.current,
    })
}

// The lowest active guest. An empty mask has 32 zeros at its end, more than there are guests; the contract says that number, so this gives no Option.
pub fn lowest(guests: [Guest; GUEST_PLACES], count: usize) -> usize
    ensures { LowestTold guests count result }
{
    let mask = mask_of(&guests, count);
    u32::trailing_zeros(mask) as usize
}

// What is charged: so many ticks, to a guest's own budget and tallies, to the first spare, and to the processor's tallies. `removed` is 1
// where the first spare is spent, and else 0: it is added to what is spent, so it is no flag.
#[derive(Clone, Copy, Default)]
pub struct Charge {
    pub ticks: u64,
    pub guest: usize,
    pub own: u64,
    pub borrowed: u64,
    pub spent: u64,
    pub removed: usize,
    pub burned: u64,
    pub empty: u64,
}

// What the picked guest and the first spare, where there are such, make the next tick use.
#[tactic(auto, unfolding(crate::specs::Choice::pick_of))]
pub fn portion_for(pick: Option<Pick>, first: Option<Spare>) -> Portion
    ensures { PortionTold pick first result }
{
    let Some(p) = pick else {
        return match first {
            Some(x) => Portion::Burn(x.owner, x.deadline, x.capacity),
            None => Portion::Nothing,
        };
    };
    match first.filter(|x| x.deadline <= p.deadline) {
        Some(x) => Portion::Run(p.guest, Source::SpareOf(x.owner), x.deadline, x.capacity),
        None => Portion::Run(p.guest, Source::Own, p.deadline, p.current),
    }
}

// A spare is spent where the ticks reach its capacity.
fn removed_by(ticks: u64, capacity: u64) -> usize
    ensures { result ≡ removed_by ticks capacity }
{
    usize::from(capacity <= ticks)
}

// So many ticks, charged to nobody yet.
fn blank(ticks: u64, guest: usize) -> Charge
    ensures { result ≡ blank ticks guest }
{
    Charge {
        ticks,
        guest,
        ..Charge::default()
    }
}

fn run_charge(source: Source, i: usize, ticks: u64, removed: usize) -> Charge
    ensures { result ≡ run_charge source i ticks removed }
{
    match source {
        Source::Own => Charge {
            own: ticks,
            ..blank(ticks, i)
        },
        Source::SpareOf(_) => Charge {
            borrowed: ticks,
            spent: ticks,
            removed,
            ..blank(ticks, i)
        },
    }
}

// Where nobody runs, the charge names the guest that ran last: nothing is added to its numbers.
pub fn charge_of(portion: Portion, left: u64, last: usize) -> Charge
    ensures { ChargeTold portion left last result }
{
    match portion {
        Portion::Run(i, source, _, span) => {
            let ticks = left.min(span);
            run_charge(source, i, ticks, removed_by(ticks, span))
        }
        Portion::Burn(_, _, span) => {
            let spent = left.min(span);
            Charge {
                spent,
                removed: removed_by(spent, span),
                burned: spent,
                ..blank(spent, last)
            }
        }
        Portion::Nothing => Charge {
            empty: left,
            ..blank(left, last)
        },
    }
}
