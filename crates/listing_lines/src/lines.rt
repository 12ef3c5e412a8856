// Whole lines, one after the other.
ghost use Rattle.std.specs.Prelude.{◌≡◌, ◌≤◌, length, Some};
ghost use Rattle.listing_input.specs.declared.Line.{Line};
ghost use Rattle.spec_listing.specs.Step.{run_of, Step, Ran};

use base_program::{Program, Timed};
use listing_input::Line;
use spec_calls::{Answer, State};

// Where a run of lines stopped: the refusal or 0, how many bytes it took, and the state.
#[derive(Clone, Copy)]
pub struct Progress {
    pub refusal: u8,
    pub used: usize,
    pub state: State,
}

fn stop(refusal: u8, used: usize, state: State) -> Progress
    ensures { result ≡ record { refusal = refusal; used = used; state = state } }
{
    Progress {
        refusal,
        used,
        state,
    }
}

// A tick: Table 1, then Table 2.
fn tick(
    p: Program,
    day: u32,
    time: u32,
    state: State,
    readings: &[f32],
    locations: &mut [f32],
    sums: &mut [f32],
    counts: &mut [u32],
    ring: &mut [u16],
) -> Answer
    ensures { Step p (Some (Line.Tick day time)) (run_of state readings.now locations.old sums.old counts.old ring.old) result.refusal (run_of result.state readings.now locations.new sums.new counts.new ring.new) }
{
    let a = logger::scan(
        p,
        Timed::One,
        day,
        time,
        state,
        readings,
        &mut locations[..],
        &mut sums[..],
        &mut counts[..],
        &mut ring[..],
    );
    if a.refusal != 0 {
        return a;
    }
    let s = a.state;
    logger::scan(
        p,
        Timed::Two,
        day,
        time,
        s,
        readings,
        locations,
        sums,
        counts,
        ring,
    )
}

// The whole lines of s; it stops at a refusal, or behind the last of them.
pub fn run_lines(
    p: Program,
    first: State,
    s: &[u8],
    readings: &mut [f32],
    locations: &mut [f32],
    sums: &mut [f32],
    counts: &mut [u32],
    ring: &mut [u16],
) -> Progress
    requires { length readings.old ≡ 196 }
    ensures { Ran p s.now (run_of first readings.old locations.old sums.old counts.old ring.old) result.refusal result.used (run_of result.state readings.new locations.new sums.new counts.new ring.new) }
{
    let mut state = first;
    let mut used = 0;
    loop {
        let e = text_items::find(s, used, 10);
        if e == s.len() {
            return stop(0, used, state);
        }
        let next = e + 1;
        let Some(line) = listing_later::read_line(&s[used..e]) else {
            return stop(1, used, state);
        };
        match line {
            Line::Reading(n, v) => {
                let at = n - 1;
                readings[at] = v;
                used = next;
                continue;
            }
            Line::Tick(day, time) => {
                let a = tick(
                    p,
                    day,
                    time,
                    state,
                    readings,
                    &mut locations[..],
                    &mut sums[..],
                    &mut counts[..],
                    &mut ring[..],
                );
                state = a.state;
                if a.refusal != 0 {
                    return stop(a.refusal, used, state);
                }
                used = next;
                continue;
            }
        }
    }
}
