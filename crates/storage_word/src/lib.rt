// The 16-bit words of Final Storage: the start word of an array, and what a word says.
#![tactic(auto)]

ghost use Rattle.std.specs.Prelude.{◌≡◌, true, false, ◌<◌};
ghost use Rattle.storage_word.specs.Word.{start_word, is_start, is_value, decimal_of};

// A value as it is listed: its sign, the number of digits behind the point, and its digits.
#[derive(Clone, Copy)]
pub struct Decimal {
    pub negative: bool,
    pub places: u8,
    pub digits: u16,
}

// The start word of the array with this id.
pub fn start_word(id: u16) -> u16
    requires { id < 1024 }
    ensures { result ≡ start_word id }
{
    64512 + id
}

// A start word, and no value's.
pub fn is_start(w: u16) -> bool
    ensures { result ≡ is_start w }
{
    64512 <= w
}

// Some value has this word. Then it is no start word.
pub fn is_value(w: u16) -> bool
    ensures { (result ≡ is_value w) × (result ≡ true → is_start w ≡ false) }
{
    let places = w / 8192 % 4;
    let digits = w % 8192;
    if digits > 6999 {
        return false;
    }
    if places == 3 {
        return w < 32768 || 0 < digits;
    }
    700 <= digits
}

// The sign, places and digits that a word has.
pub fn decimal_of(w: u16) -> Decimal
    ensures { result ≡ decimal_of w }
{
    Decimal {
        negative: 32768 <= w,
        places: (w / 8192 % 4) as u8,
        digits: w % 8192,
    }
}
