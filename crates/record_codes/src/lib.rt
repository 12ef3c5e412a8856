// Control-flow kinds as numbers: what the check's walks and the scan are lent of each entry of a record.
#![tactic(auto)]

ghost use Rattle.std.specs.Prelude.{◌≡◌, min};
ghost use Rattle.spec_check.specs.Blocks.{label};
ghost use Rattle.record_codes.specs.Loaded.{decode, NumberIs};

use base_program::Flow;

// A kind is a multiple of 65,536; a loop's count or a subroutine's number is added to it.
pub const ELSE: u32 = 65536;

pub const END: u32 = 131072;

pub const THEN: u32 = 196608;

pub const STOP: u32 = 262144;

pub const LOOP: u32 = 327680;

pub const SUBROUTINE: u32 = 393216;

pub const CALL: u32 = 458752;

pub const EXIT_IF_TRUE: u32 = 524288;

pub const EXIT_IF_FALSE: u32 = 589824;

#[tactic(auto, unfolding(crate::specs::Loaded::decode))]
pub fn encode_flow(x: Flow) -> u32
    ensures { decode result ≡ x }
{
    match x {
        Flow::Next => 0,
        Flow::Else => ELSE,
        Flow::End => END,
        Flow::Then => THEN,
        Flow::Stop => STOP,
        Flow::Loop(n) => LOOP + n as u32,
        Flow::Subroutine(k) => SUBROUTINE + k as u32,
        Flow::Call(k) => CALL + k as u32,
        Flow::Exit(true) => EXIT_IF_TRUE,
        Flow::Exit(false) => EXIT_IF_FALSE,
    }
}

#[tactic(auto, unfolding(crate::specs::Loaded::decode))]
pub fn decode_flow(c: u32) -> Flow
    ensures { result ≡ decode c }
{
    let kind = c / 65536;
    let n = (c % 65536) as u16;
    let k = (c % 256) as u8;
    match kind {
        0 => Flow::Next,
        1 => Flow::Else,
        2 => Flow::End,
        3 => Flow::Then,
        4 => Flow::Stop,
        5 => Flow::Loop(n),
        6 => Flow::Subroutine(k),
        7 => Flow::Call(k),
        8 => Flow::Exit(true),
        _ => Flow::Exit(false),
    }
}

// The number of an 85; no other entry has one.
#[tactic(auto, unfolding(spec_check::specs::Blocks::label))]
pub fn label_number(x: Flow) -> Option<u8>
    ensures { NumberIs (label x) result }
{
    match x {
        Flow::Subroutine(k) => Some(k),
        _ => None,
    }
}

// The entries that a table has room for.
pub fn entries_in_use(claimed: u8) -> usize
    ensures { result ≡ min claimed 99 }
{
    usize::from(claimed.min(99))
}
