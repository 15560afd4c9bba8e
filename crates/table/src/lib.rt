// The check of a table that any caller may fill with any numbers, refusals 10, 12, 13 and 14, smallest first; and the table of a refusal.
#![tactic(auto)]

ghost use Rattle.std.specs.Prelude.{◌≡◌, true, ◌≤◌, length};
ghost use Rattle.laws.specs.Lists.{every, total};
ghost use Rattle.rules.specs.Limits.{guest_places, longest_frame};
ghost use Rattle.rules.specs.Table.{fits_frame, entry_is_zero, share_of};
ghost use Rattle.rules.specs.Calls.{TableChecked, NoTableMade};

use rules::{Entry, GUEST_PLACES, LONGEST_FRAME, Refusal, Table};

// "a refused table .. is all zeros"
pub fn no_table() -> Table
    ensures { NoTableMade result }
{
    Table {
        frame: 0,
        count: 0,
        entries: [Entry::default(); GUEST_PLACES],
    }
}

// A period of 0 is shorter than every budget that passes, so nothing is divided by it.
fn fits_frame(e: &Entry, frame: u64) -> bool
    ensures { result ≡ fits_frame frame e.now }
{
    1 <= e.budget && e.budget <= e.period && frame % e.period == 0
}

fn all_fit(used: &[Entry], frame: u64) -> bool
    ensures { result ≡ every (fits_frame frame) used.now }
{
    used.iter().all(|e| fits_frame(e, frame))
}

fn is_zero(e: &Entry) -> bool
    ensures { result ≡ entry_is_zero e.now }
{
    *e == Entry::default()
}

fn all_zero(unused: &[Entry]) -> bool
    ensures { result ≡ every entry_is_zero unused.now }
{
    unused.iter().all(is_zero)
}

// At most the frame, since Q is at most T.
fn share(e: &Entry, frame: u64) -> u64
    requires { fits_frame frame e.now ≡ true }
    ensures { (result ≡ share_of frame e.now) × (result ≤ frame) }
{
    e.budget * (frame / e.period)
}

fn shares(used: &[Entry], frame: u64) -> u64
    requires few { (length used.now ≤ guest_places) × (frame ≤ longest_frame) }
    requires fit { every (fits_frame frame) used.now ≡ true }
    ensures { result ≡ total (share_of frame) used.now }
{
    let mut sum = 0;
    for e in used {
        sum += share(e, frame);
    }
    sum
}

// The count comes first, since it says which places are in use; any numbers may stand in them.
pub fn check(t: Table) -> Result<(), Refusal>
    ensures { TableChecked t result }
{
    if t.count == 0 || GUEST_PLACES < t.count {
        return Err(Refusal::GuestCount);
    }
    if t.frame == 0 || LONGEST_FRAME < t.frame {
        return Err(Refusal::FrameRange);
    }
    let (used, unused) = t.entries.split_at(t.count);
    if !all_fit(used, t.frame) || !all_zero(unused) {
        return Err(Refusal::BadGuest);
    }
    if t.frame < shares(used, t.frame) {
        return Err(Refusal::ShareTooLarge);
    }
    Ok(())
}
