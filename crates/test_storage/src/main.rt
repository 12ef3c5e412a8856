// Runs the words of the manual's section 2.2, the document's cases and traps, and rings of many kinds, and prints what each gives.
#![tactic(auto)]

mod ring;
mod show;

use std::io;

// At the ends of each number of places.
fn words(rt: &impl Print) -> io::Result<()> {
    show::word_of(rt, 0.0)?;
    show::word_of(rt, 0.001)?;
    show::word_of(rt, -0.001)?;
    show::word_of(rt, 6.999)?;
    show::word_of(rt, 7.0)?;
    show::word_of(rt, 69.99)?;
    show::word_of(rt, 70.0)?;
    show::word_of(rt, 699.9)?;
    show::word_of(rt, 700.0)?;
    show::word_of(rt, 6999.0)?;
    show::word_of(rt, -99999.0)?;
    show::word_of(rt, -0.1)
}

// Places are chosen after rounding, halves go away from zero, and digits 0 are never negative.
fn traps(rt: &impl Print) -> io::Result<()> {
    show::word_of(rt, 2.5)?;
    show::word_of(rt, -0.0625)?;
    show::word_of(rt, 6.9994)?;
    show::word_of(rt, 6.9996)?;
    show::word_of(rt, 69.996)?;
    show::word_of(rt, 699.96)?;
    show::word_of(rt, 6999.4)?;
    show::word_of(rt, 6999.5)?;
    show::word_of(rt, 7000.0)?;
    show::word_of(rt, 0.1875)?;
    show::word_of(rt, 0.0004)?;
    show::word_of(rt, -0.0004)?;
    show::word_of(rt, -0.0)?;
    show::word_of(rt, 1.0e30)?;
    show::word_of(rt, -1.0e-40)?;
    show::word_of(rt, 1.0f32 / 0.0f32)?;
    show::word_of(rt, 0.0f32 / 0.0f32)
}

fn main(rt: HostRuntime) -> io::Result<()> {
    words(&rt)?;
    traps(&rt)?;
    ring::kinds(&rt)?;
    ring::lengths(&rt)?;
    ring::refusals(&rt)
}
