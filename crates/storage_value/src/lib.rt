// The 16-bit word of a value.
#![tactic(auto)]

ghost use Rattle.std.specs.Prelude.{◌≡◌, true, ◌*◌, ◌/◌, ◌^◌, ◌<◌, T, Float};
ghost use Rattle.std.specs.Float.{binary32};
ghost use Rattle.std.specs.Float.Ieee.{of_bits};
ghost use Rattle.std.specs.Float.Ieee.Positive.{positive};
ghost use Rattle.base_float.specs.Finite.{finite, stored};
ghost use Rattle.storage_word.specs.Word.{nearest_up, value_word};
ghost use Rattle.storage_value.specs.Shown.{Quotient, Factors, Shows};

// The places and digits of a value, without its sign.
#[derive(Clone, Copy)]
struct Figures {
    places: u16,
    digits: u16,
}

// The size of a value: significand / 2 ^ shift.
#[derive(Clone, Copy)]
struct Scaled {
    significand: u64,
    shift: u32,
}

// The size of a value below 8,192 from its bits: an exponent, then 23 binary digits, before which stands a 1 unless the exponent is 0.
fn scaled_of(bits: u32) -> Scaled
    requires { bits < 0x4600_0000 }
    ensures { Quotient (of_bits binary32 bits) result.significand result.shift }
{
    let exponent = bits / 8388608;
    let digits = bits % 8388608;
    if exponent == 0 {
        return Scaled {
            significand: digits as u64,
            shift: 149,
        };
    }
    Scaled {
        significand: (8388608 + digits) as u64,
        shift: 150 - exponent,
    }
}

// significand * k / 2 ^ shift without its fraction. The product is below 2 ^ 35.
fn cut_product(significand: u64, shift: u32, k: u64) -> u64
    requires { Factors 2000 significand k }
    ensures { result ≡ significand * k / 2 ^ shift }
{
    if shift < 64 {
        significand * k >> shift
    } else {
        0
    }
}

// significand * k / 2 ^ shift to the nearest whole number, halves up: half of one more than twice the quotient, cut.
fn rounded_product(significand: u64, shift: u32, k: u64) -> u64
    requires { Factors 1000 significand k }
    ensures { result ≡ nearest_up (significand * k) (2 ^ shift) }
{
    (cut_product(significand, shift, 2 * k) + 1) / 2
}

// The most places with which the digits are at most 6,999, of a value that is significand / 2 ^ shift.
fn figures_of(significand: u64, shift: u32) -> Figures
    requires { significand < 2 ^ 24 }
    ensures { (x : Float) → Quotient x significand shift → Shows x result.places result.digits }
{
    let thousandths = rounded_product(significand, shift, 1000);
    if thousandths <= 6999 {
        return Figures {
            places: 3,
            digits: thousandths as u16,
        };
    }
    let hundredths = rounded_product(significand, shift, 100);
    if hundredths <= 6999 {
        return Figures {
            places: 2,
            digits: hundredths as u16,
        };
    }
    let tenths = rounded_product(significand, shift, 10);
    if tenths <= 6999 {
        return Figures {
            places: 1,
            digits: tenths as u16,
        };
    }
    let ones = rounded_product(significand, shift, 1);
    if ones <= 6999 {
        return Figures {
            places: 0,
            digits: ones as u16,
        };
    }
    Figures {
        places: 0,
        digits: 6999,
    }
}

// The places and digits of a positive value. From 8,192, whose bits are 0x4600_0000, the digits are over 6,999 at every place.
fn shown(x: f32) -> Figures
    requires { T (positive x) }
    ensures { Shows x result.places result.digits }
{
    let bits = f32::to_bits(x);
    if 0x4600_0000 <= bits {
        return Figures {
            places: 0,
            digits: 6999,
        };
    }
    let s = scaled_of(bits);
    figures_of(s.significand, s.shift)
}

// The word of a finite value. Both zeros are 0.000, and digits 0 have no sign.
fn word_of_finite(x: f32) -> u16
    requires { finite x ≡ true }
    ensures { result ≡ value_word x }
{
    if x > 0.0f32 {
        let s = shown(x);
        return 8192 * s.places + s.digits;
    }
    if x < 0.0f32 {
        let s = shown(-x);
        if s.digits == 0 {
            return 8192 * s.places;
        }
        return 32768 + 8192 * s.places + s.digits;
    }
    24576
}

// The word that x is stored as.
pub fn value_word(x: f32) -> u16
    ensures { result ≡ value_word (stored x) }
{
    word_of_finite(base_float::to_store(x))
}
