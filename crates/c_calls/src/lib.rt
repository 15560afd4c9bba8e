// Each call of the engine as C reads its answer: refusals and cases as numbers. The state is still handed on by value.
#![tactic(auto)]

ghost use Rattle.std.specs.Prelude.{◌≡◌, map, replicate, Result};
ghost use Rattle.std.specs.Result.{result_unwrap_or};
ghost use Rattle.rules.specs.Limits.{line_places};
ghost use Rattle.rules.specs.Refusals.{number_of};
ghost use Rattle.rules.specs.Walks.{no_line};
ghost use Rattle.c_answers.specs.Clauses.{use_numbers, next_of, line_shown, ArrivedInPlace, FinishedInPlace, AdvancedInPlace, FreshInPlace, NextTold, ActivesTold, DistanceTold, WalkedInPlace};

use answer_number::number_of;
use c_answers::{Actives, Changed, Distance, LineShown, Next, UseNumbers, WalkShown, Walked};
use rules::{LINE_PLACES, Line, Portion, Refusal, Source, State, Table, Use};

// The state that a call gives, or else the one of its refusal.
fn changed(outcome: Result<State, Refusal>, refused: State) -> Changed
    ensures refusal { result.refusal ≡ number_of outcome }
    ensures state { result.state ≡ result_unwrap_or outcome refused }
{
    match outcome {
        Ok(state) => Changed { refusal: 0, state },
        Err(refusal) => Changed {
            refusal: u32::from(refusal),
            state: refused,
        },
    }
}

// A fresh state of a table. It is made here of the one of zeros, and not taken out of the answer: that copies a state twice more, and takes 2 KB more of stack.
pub fn fresh(table: Table) -> Changed
    ensures { FreshInPlace table result.state result.refusal }
{
    let refusal = number_of(&engine::fresh(table));
    let mut state = engine::no_state();
    if refusal == 0 {
        state.table = table;
    }
    Changed { refusal, state }
}

// A job arrives at a guest.
pub fn arrive(state: State, guest: usize) -> Changed
    ensures { ArrivedInPlace state guest result.state result.refusal }
{
    changed(engine::arrive(state, guest), state)
}

// A guest's job is done.
pub fn done(state: State, guest: usize) -> Changed
    ensures { FinishedInPlace state guest result.state result.refusal }
{
    changed(engine::done(state, guest), state)
}

// Time goes on by so many ticks.
pub fn advance(state: State, ticks: u64) -> Changed
    ensures { AdvancedInPlace state ticks result.state result.refusal }
{
    changed(engine::advance(state, ticks), state)
}

fn use_numbers(used: Use) -> UseNumbers
    ensures { result ≡ use_numbers used }
{
    let (kind, guest, owner) = match used {
        Use::Run(guest, Source::Own) => (1, guest, guest),
        Use::Run(guest, Source::SpareOf(owner)) => (2, guest, owner),
        Use::Burn(owner) => (3, 0, owner),
        Use::Nothing => (0, 0, 0),
    };
    UseNumbers { kind, guest, owner }
}

fn next_of(refusal: u32, next: Portion) -> Next
    ensures { result ≡ next_of refusal next }
{
    let (used, deadline, span) = match next {
        Portion::Run(guest, source, deadline, span) => (Use::Run(guest, source), deadline, span),
        Portion::Burn(owner, deadline, span) => (Use::Burn(owner), deadline, span),
        Portion::Nothing => (Use::Nothing, 0, 0),
    };
    Next {
        refusal,
        used: use_numbers(used),
        deadline,
        span,
    }
}

// What the next tick would do.
pub fn ask(state: State) -> Next
    ensures { NextTold state result }
{
    let asked = engine::ask(state);
    next_of(number_of(&asked), asked.unwrap_or(Portion::Nothing))
}

// Who is active.
pub fn active(state: State) -> Actives
    ensures { ActivesTold state result }
{
    let told = engine::active(state);
    let (mask, actives) = told.map_or((0, 0), |activity| (activity.mask, activity.actives));
    Actives {
        refusal: number_of(&told),
        mask,
        actives,
    }
}

// How far ahead a guest's deadline lies.
pub fn margin(state: State, guest: usize) -> Distance
    ensures { DistanceTold state guest result }
{
    let margin = engine::margin(state, guest);
    Distance {
        refusal: number_of(&margin),
        ticks: margin.unwrap_or(0),
    }
}

fn line_shown(line: Line) -> LineShown
    ensures { result ≡ line_shown line }
{
    LineShown {
        first: line.first,
        end: line.end,
        used: use_numbers(line.used),
    }
}

// A loop and no `map`, which moves both arrays and takes some 4 KB more of stack.
fn lines_shown(lines: &[Line; LINE_PLACES]) -> [LineShown; LINE_PLACES]
    ensures { result ≡ map line_shown lines.now }
{
    let mut shown = [nothing_shown(); LINE_PLACES];
    for i in 0..LINE_PLACES {
        shown[i] = line_shown(lines[i]);
    }
    shown
}

fn nothing_shown() -> LineShown
    ensures { result ≡ line_shown no_line }
{
    LineShown {
        first: 0,
        end: 0,
        used: use_numbers(Use::Nothing),
    }
}

// A walk that made no tick.
fn not_walked(refusal: u32) -> WalkShown
    ensures { result ≡ record { refusal = refusal; left = 0; shown = 0; lines = replicate line_places (line_shown no_line) } }
{
    WalkShown {
        refusal,
        left: 0,
        shown: 0,
        lines: [nothing_shown(); LINE_PLACES],
    }
}

// An advance, shown portion by portion, as many as there are places for.
pub fn walk(state: State, ticks: u64) -> Walked
    ensures { WalkedInPlace state ticks result.state result.told }
{
    match engine::walk(state, ticks) {
        Ok(walk) => Walked {
            told: WalkShown {
                refusal: 0,
                left: walk.left,
                shown: walk.shown,
                lines: lines_shown(&walk.lines),
            },
            state: walk.state,
        },
        Err(refusal) => Walked {
            told: not_walked(u32::from(refusal)),
            state,
        },
    }
}
