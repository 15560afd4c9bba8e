// The lines that the program writes: stretches, events, refusals and, at the end, the tallies.
use crate::events::{Call, Event};
use crate::guests::GUESTS;
use rules::{Guest, Portion, Refusal, Source, State};

// Where output goes to, by its number.
const STDOUT_FILENO: i32 = 1;

fn write_text(words: &[u8]) {
    io::write_all(STDOUT_FILENO, words);
}

fn write_number(n: u64) {
    io::print_decimal(STDOUT_FILENO, n);
}

fn write_guest_number(i: usize) {
    write_number(i as u64);
}

fn write_source(source: Source) {
    match source {
        Source::Own => write_text(b" own"),
        Source::SpareOf(owner) => {
            write_text(b" spare of ");
            write_guest_number(owner);
        }
    }
}

fn write_span(span: u64) {
    write_text(b", span ");
    write_number(span);
    write_text(b"\n");
}

pub(crate) fn write_stretch(first: u64, end: u64, next: Portion) {
    write_number(first);
    write_text(b" ");
    write_number(end);
    write_text(b" ");
    match next {
        Portion::Run(guest, source, _, span) => {
            write_guest_number(guest);
            write_source(source);
            write_span(span);
        }
        Portion::Burn(owner, _, span) => {
            write_text(b"- burned spare of ");
            write_guest_number(owner);
            write_span(span);
        }
        Portion::Nothing => write_text(b"- idle\n"),
    }
}

pub(crate) fn write_event(event: Event) {
    write_text(b"at ");
    write_number(event.tick);
    match event.call {
        Call::Arrive => write_text(b" arrive "),
        Call::Done => write_text(b" done "),
    }
    write_guest_number(event.guest);
    write_text(b"\n");
}

pub(crate) fn write_refusal(refusal: Refusal) {
    write_text(b"! ");
    write_number(u64::from(u32::from(refusal)));
    write_text(b"\n");
}

fn write_guest(i: usize, guest: &Guest) {
    write_text(b"guest ");
    write_guest_number(i);
    write_text(b" own ");
    write_number(guest.own);
    write_text(b" spare ");
    write_number(guest.borrowed);
    write_text(b"\n");
}

fn write_guests(guests: &[Guest]) {
    for (i, guest) in guests.iter().enumerate() {
        write_guest(i, guest);
    }
}

pub(crate) fn write_end(state: State) {
    write_text(b"end ");
    write_number(state.now);
    write_text(b"\n");
    write_guests(&state.guests[..GUESTS]);
    write_text(b"burned ");
    write_number(state.burned);
    write_text(b"\nidle ");
    write_number(state.empty);
    write_text(b"\n");
}
