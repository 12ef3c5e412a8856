// Items of arrays and refusals, as the listing program prints them.
#![tactic(auto)]

ghost use Rattle.std.specs.Prelude.{◌≤◌, length};
ghost use Rattle.listing_output.specs.Written.{Put};
ghost use Rattle.listing_output.specs.Shown.{sign, fraction, value_bytes, item_bytes, spaced, refusal_bytes};

use listing_output::{over_places, put_byte, put_figures, put_numeral};
use storage_listing::Item;
use storage_word::Decimal;

// `-`, or nothing.
fn put_sign(negative: bool, out: &mut [u8], n: usize) -> usize
    requires { n ≤ length out.old }
    ensures { Put out.old n (sign negative) result out.new }
{
    if negative {
        return put_byte(b'-', out, n);
    }
    n
}

// The point and the places behind it.
fn put_fraction(places: usize, digits: u16, out: &mut [u8], n: usize) -> usize
    requires { n ≤ length out.old }
    ensures { Put out.old n (fraction places digits) result out.new }
{
    if places == 0 {
        return n;
    }
    let m = put_byte(b'.', &mut out[..], n);
    put_figures(places, digits, &mut out[..], m)
}

// A value with its places.
pub fn put_value(d: Decimal, out: &mut [u8], n: usize) -> usize
    requires { n ≤ length out.old }
    ensures { Put out.old n (value_bytes d) result out.new }
{
    let places = d.places as usize;
    let a = put_sign(d.negative, &mut out[..], n);
    let b = put_numeral(over_places(d.digits, places), &mut out[..], a);
    put_fraction(places, d.digits, &mut out[..], b)
}

// An item that a listing call answers: an id, or a value after a comma. Of none and of a refusal nothing is written.
pub fn put_item(l: Result<Option<Item>, u8>, out: &mut [u8], n: usize) -> usize
    requires { n ≤ length out.old }
    ensures { Put out.old n (item_bytes l) result out.new }
{
    match l {
        Err(_) => n,
        Ok(None) => n,
        Ok(Some(Item::Id(id))) => put_numeral(id, out, n),
        Ok(Some(Item::Value(d))) => {
            let m = put_byte(b',', &mut out[..], n);
            put_value(d, &mut out[..], m)
        }
    }
}

// A space and a number.
fn put_spaced(k: u8, out: &mut [u8], n: usize) -> usize
    requires { n ≤ length out.old }
    ensures { Put out.old n (spaced k) result out.new }
{
    let m = put_byte(b' ', &mut out[..], n);
    put_numeral(k as u16, &mut out[..], m)
}

// A refusal by its number, table and entry.
pub fn put_refusal(number: u8, table: u8, entry: u8, out: &mut [u8], n: usize) -> usize
    requires { n ≤ length out.old }
    ensures { Put out.old n (refusal_bytes number table entry) result out.new }
{
    let a = put_byte(b'E', &mut out[..], n);
    let b = put_spaced(number, &mut out[..], a);
    let c = put_spaced(table, &mut out[..], b);
    let d = put_spaced(entry, &mut out[..], c);
    put_byte(b'\n', &mut out[..], d)
}
