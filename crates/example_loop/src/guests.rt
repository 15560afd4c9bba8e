// The guests of this run and their table. A hypervisor has the table in its image instead.
use rules::{Entry, GUEST_PLACES, Table};

pub(crate) const CLUSTER_VIEW: usize = 0;

pub(crate) const MEDIA: usize = 1;

pub(crate) const NAVIGATION: usize = 2;

pub(crate) const PHONE: usize = 3;

pub(crate) const GUESTS: usize = 4;

// A tick is 10 microseconds, so the cluster view has 2 milliseconds of every 10. The shares take 3,600 ticks of each frame of
// 4,000, so the table is accepted.
pub(crate) fn four_guests() -> Table {
    let mut entries = [Entry::default(); GUEST_PLACES];
    entries[CLUSTER_VIEW] = Entry {
        budget: 200,
        period: 1000,
    };
    entries[MEDIA] = Entry {
        budget: 400,
        period: 2000,
    };
    entries[NAVIGATION] = Entry {
        budget: 1000,
        period: 4000,
    };
    entries[PHONE] = Entry {
        budget: 500,
        period: 2000,
    };
    Table {
        frame: 4000,
        count: GUESTS,
        entries,
    }
}
