// The entry with an instruction's number and the items of its line.
#![tactic(auto)]

ghost use Rattle.std.specs.Prelude.{◌≡◌, ◌+◌, length};
ghost use Rattle.text_parameters.specs.Entry.{parameters, made, counted, form_of};

use base_program::Instruction;
use text_control::{bare_entry, carry_out, if_fixed, if_flag, if_locations, label};
use text_items::Items;
use text_measure::measure;
use text_parameters::{Form, form_of, parameters_of};
use text_processing::{combine, combine_fixed, copy, increment, set_fixed, store};
use text_timing::{if_time, repeat, store_time};

// The entry of a form, all its items there.
#[tactic(auto, unfolding(text_parameters::specs::Entry::made, text_parameters::specs::Entry::parameters))]
fn make(items: &Items, f: Form, n: u32) -> Result<Instruction, u8>
    requires { length items.now ≡ parameters f + 1 }
    ensures { result ≡ made f n items.now }
{
    match f {
        Form::Measurement => measure(items, n),
        Form::Constant => set_fixed(items),
        Form::Copy => copy(items),
        Form::Increment => increment(items),
        Form::Combination => combine(items, n),
        Form::WithFixed => combine_fixed(items, n),
        Form::Output => store(items, n),
        Form::Time => store_time(items),
        Form::Subroutine => label(items),
        Form::Do => carry_out(items),
        Form::Loop => repeat(items),
        Form::IfLocations => if_locations(items),
        Form::IfFixed => if_fixed(items),
        Form::IfFlag => if_flag(items),
        Form::IfTime => if_time(items),
        Form::Bare => bare_entry(n),
    }
}

// The entry with instruction n: fault 3 where there is none, 4 at another count of parameters.
#[tactic(auto, unfolding(text_parameters::specs::Entry::counted))]
pub fn count_and_make(items: &Items, n: u32) -> Result<Instruction, u8>
    ensures { result ≡ counted (form_of n) n items.now }
{
    let f = form_of(n).ok_or(3)?;
    if items.len() == parameters_of(f) + 1 {
        make(items, f, n)
    } else {
        Err(4)
    }
}
