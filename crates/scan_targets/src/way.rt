// The place behind the End, and behind the Else, of the innermost block open in front of an entry, from what is known behind it.
ghost use Rattle.std.specs.Prelude.{◌≡◌};
ghost use Rattle.scan_targets.specs.Fill.{end_way, else_way};

use base_program::Flow;

// `q` is the place behind the entry, `end` what is known there, `outer` what is known behind that End.
pub fn end_way(x: Flow, q: u8, end: u8, outer: u8) -> u8
    ensures { result ≡ end_way x q end outer }
{
    match x {
        Flow::Next => end,
        Flow::Else => end,
        Flow::End => q,
        Flow::Then => outer,
        Flow::Stop => end,
        Flow::Loop(_) => outer,
        Flow::Subroutine(_) => outer,
        Flow::Call(_) => end,
        Flow::Exit(_) => end,
    }
}

pub fn else_way(x: Flow, q: u8, end: u8, other: u8, outer: u8) -> u8
    ensures { result ≡ else_way x q end other outer }
{
    match x {
        Flow::Next => other,
        Flow::Else => { if end == 0 { 0 } else { q } }
        Flow::End => 0,
        Flow::Then => outer,
        Flow::Stop => other,
        Flow::Loop(_) => outer,
        Flow::Subroutine(_) => outer,
        Flow::Call(_) => other,
        Flow::Exit(_) => other,
    }
}
