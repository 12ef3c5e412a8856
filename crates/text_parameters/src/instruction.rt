// The instructions' numbers and forms.
ghost use Rattle.std.specs.Prelude.{◌≡◌, ◌≤◌};
ghost use Rattle.text_parameters.specs.Entry.{form_of, parameters};

use crate::Form;

// The form of instruction n, where there is such an instruction.
#[tactic(auto, unfolding(crate::specs::Entry::form_of))]
pub fn form_of(n: u32) -> Option<Form>
    ensures { result ≡ form_of n }
{
    Some(match n {
        1 | 2 => Form::Measurement,
        30 => Form::Constant,
        31 => Form::Copy,
        32 => Form::Increment,
        33 | 35 | 36 | 38 => Form::Combination,
        34 | 37 => Form::WithFixed,
        70..=74 => Form::Output,
        77 => Form::Time,
        85 => Form::Subroutine,
        86 => Form::Do,
        87 => Form::Loop,
        88 => Form::IfLocations,
        89 => Form::IfFixed,
        91 => Form::IfFlag,
        92 => Form::IfTime,
        94 | 95 => Form::Bare,
        _ => return None,
    })
}

// How many parameters a form has.
#[tactic(auto, unfolding(crate::specs::Entry::parameters))]
pub fn parameters_of(f: Form) -> usize
    ensures { (result ≡ parameters f) × (result ≤ 7) }
{
    match f {
        Form::Measurement => 7,
        Form::Constant => 2,
        Form::Copy => 2,
        Form::Increment => 1,
        Form::Combination => 3,
        Form::WithFixed => 3,
        Form::Output => 2,
        Form::Time => 1,
        Form::Subroutine => 1,
        Form::Do => 1,
        Form::Loop => 2,
        Form::IfLocations => 4,
        Form::IfFixed => 4,
        Form::IfFlag => 2,
        Form::IfTime => 3,
        Form::Bare => 0,
    }
}
