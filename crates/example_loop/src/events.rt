// The events of this run. A hypervisor has the interrupts and the calls of its guests instead.
ghost use Rattle.std.specs.Prelude.{◌≡◌, ◌<◌};

use crate::guests::{CLUSTER_VIEW, MEDIA, NAVIGATION, PHONE};

// The tick at which the run is over.
pub(crate) const END: u64 = 3600;

#[derive(Clone, Copy)]
pub(crate) enum Call {
    Arrive,
    Done,
}

#[derive(Clone, Copy)]
pub(crate) struct Event {
    pub(crate) tick: u64,
    pub(crate) call: Call,
    pub(crate) guest: usize,
}

fn arrive(tick: u64, guest: usize) -> Event
    ensures { result.tick ≡ tick }
{
    Event {
        tick,
        call: Call::Arrive,
        guest,
    }
}

fn done(tick: u64, guest: usize) -> Event {
    Event {
        tick,
        call: Call::Done,
        guest,
    }
}

// The event with this number. Behind the last one nothing comes before the end, and what stands there is never handed over: so a loop that
// takes what has come before the end runs out of events.
pub(crate) fn event_of(number: usize) -> Event
    ensures { result.tick < 3600 → number < 13 }
{
    match number {
        0 => arrive(0, CLUSTER_VIEW),
        1 => arrive(0, NAVIGATION),
        2 => done(100, CLUSTER_VIEW),
        3 => arrive(400, MEDIA),
        4 => arrive(1000, CLUSTER_VIEW),
        5 => done(1200, CLUSTER_VIEW),
        // The phone is idle, so this one is refused.
        6 => done(1400, PHONE),
        7 => done(1600, NAVIGATION),
        8 => done(1900, MEDIA),
        9 => arrive(2500, PHONE),
        10 => arrive(2700, PHONE),
        11 => done(3200, PHONE),
        12 => done(3300, PHONE),
        _ => arrive(END, CLUSTER_VIEW),
    }
}
