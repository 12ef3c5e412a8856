// Printing.
use crate::Run;
use spec_calls::State;
use std::io;
use storage_listing::Item;

// What the listing answers: a value by its sign, places and digits.
pub fn item(rt: &impl Print, a: Result<Option<Item>, u8>) -> io::Result<()> {
    match a {
        Ok(None) => println!(rt; " none"),
        Err(n) => println!(rt; " E {n}"),
        Ok(Some(Item::Id(n))) => println!(rt; " id {n}"),
        Ok(Some(Item::Value(d))) => println!(rt;
            " value {} {} {}",
            u8::from(d.negative),
            d.places,
            d.digits
        ),
    }
}

fn bits(rt: &impl Print, s: &[bool]) -> io::Result<()> {
    for b in s {
        print!(rt; "{}", u8::from(*b))?;
    }
    Ok(())
}

fn state(rt: &impl Print, s: State) -> io::Result<()> {
    let days = s.days;
    let minutes = s.minutes;
    print!(rt; " flags ")?;
    bits(rt, &s.flags)?;
    print!(rt; " ports ")?;
    bits(rt, &s.ports)?;
    print!(rt; " ring {} {} array {}", s.position, s.filled, s.array)?;
    print!(rt;
        " last {} {} {} {}",
        days[0], minutes[0], days[1], minutes[1]
    )
}

// What stands at each place, but for +0: the bits in hexadecimal, behind the place.
fn floats(rt: &impl Print, values: &[f32]) -> io::Result<()> {
    for (i, x) in values.iter().enumerate() {
        let place = i + 1;
        if x.is_nan() {
            print!(rt; " {place}=nan")?;
        } else if x.to_bits() != 0 {
            print!(rt; " {place}={:08x}", x.to_bits())?;
        }
    }
    Ok(())
}

fn counts(rt: &impl Print, values: &[u32]) -> io::Result<()> {
    for (i, n) in values.iter().enumerate() {
        if *n != 0 {
            print!(rt; " {}={n}", i + 1)?;
        }
    }
    Ok(())
}

// The ring's words in place, with how often each stands there; zeros at the end are left out.
fn words(rt: &impl Print, ring: &[u16]) -> io::Result<()> {
    let end = match ring.iter().rposition(|w| *w != 0) {
        Some(i) => i + 1,
        None => 0,
    };
    for run in ring[..end].chunk_by(|a, b| a == b) {
        match run {
            [] => {}
            [w] => print!(rt; " {w}")?,
            [w, ..] => print!(rt; " {w}*{}", run.len())?,
        }
    }
    Ok(())
}

impl Run {
    // The refusal, the state and all that can be lent and isn't 0.
    pub fn print(&self, rt: &impl Print, refusal: u8) -> io::Result<()> {
        print!(rt; " {refusal}")?;
        state(rt, self.state)?;
        print!(rt; " locations")?;
        floats(rt, &self.locations)?;
        print!(rt; " sums")?;
        floats(rt, &self.sums)?;
        print!(rt; " counts")?;
        counts(rt, &self.counts)?;
        print!(rt; " words")?;
        words(rt, &self.ring)?;
        println!(rt;)
    }
}
