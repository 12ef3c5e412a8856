// Prints words, values and arrays.
use std::{fmt, io};
use storage_listing::Item;
use storage_ring::RingState;
use storage_word::Decimal;

// A value with all its places.
#[derive(Clone, Copy)]
struct Shown(Decimal);

impl fmt::Display for Shown {
    fn fmt<W: fmt::Write>(&self, f: &mut fmt::Formatter<W>) -> fmt::Result {
        let d = self.0;
        let n = d.digits;
        if d.negative {
            write!(f, "-")?;
        }
        match d.places {
            0 => write!(f, "{n}"),
            1 => write!(f, "{}.{}", n / 10, n % 10),
            2 => write!(f, "{}.{:02}", n / 100, n % 100),
            _ => write!(f, "{}.{:03}", n / 1000, n % 1000),
        }
    }
}

// The word of a value, and what it says.
pub fn word_of(rt: &impl Print, x: f32) -> io::Result<()> {
    let w = storage_value::value_word(x);
    println!(rt; "{w} {}", Shown(storage_word::decimal_of(w)))
}

// One item, behind a comma but for the id. False where there is none, or the call is refused.
fn item(rt: &impl Print, a: Result<Option<Item>, u8>) -> io::Result<bool> {
    match a {
        Ok(None) => return Ok(false),
        Err(n) => {
            println!(rt; "E {n}")?;
            return Ok(false);
        }
        Ok(Some(Item::Id(n))) => print!(rt; "{n}")?,
        Ok(Some(Item::Value(d))) => print!(rt; ",{}", Shown(d))?,
    }
    Ok(true)
}

// Array k on a line. False where there is none.
pub fn array(rt: &impl Print, ring: &[u16], s: RingState, k: usize) -> io::Result<bool> {
    for j in 0..40000 {
        if !item(rt, storage_item::list(ring, s, k, j))? {
            if j == 0 {
                return Ok(false);
            }
            break;
        }
    }
    println!(rt;)?;
    Ok(true)
}

// Every array that is shown, and a line for the end.
pub fn arrays(rt: &impl Print, ring: &[u16], s: RingState) -> io::Result<()> {
    for k in 0..40000 {
        if !array(rt, ring, s, k)? {
            break;
        }
    }
    println!(rt; "end")
}
