// The listing of an input: what is read is taken piece by piece, until the input ends or is refused.
#![tactic(auto)]

ghost use Rattle.std.specs.Prelude.{◌≡◌, Bool, ◌≤◌, length};
ghost use Rattle.spec_calls.specs.Stores.{fresh_state};
ghost use Rattle.spec_listing.specs.Step.{run_of};
ghost use Rattle.spec_listing.specs.Reading.{blank};
ghost use Rattle.listing_run.specs.Answered.{Answered, Listing, refused};

use base_input::read_more;
use listing_feed::{begin, feed};
use listing_finish::finish;
use spec_listing::Stage;
use std::io;
use std::io::{Error, ErrorKind, Read};

fn is_refused(stage: Stage) -> bool
    ensures { result ≡ refused stage }
{
    matches!(stage, Stage::Refused(_, _, _))
}

// Reads and takes pieces. The count of reads is there so that the loop is seen to end.
fn follow_input<R: Read>(
    input: &mut R,
    space: &mut [u8],
    readings: &mut [f32],
    locations: &mut [f32],
    sums: &mut [f32],
    counts: &mut [u32],
    ring: &mut [u16],
    out: &mut [u8],
) -> io::Result<usize>
    requires { (length space.old ≡ 65536) × ((run_of fresh_state readings.old locations.old sums.old counts.old ring.old ≡ blank) × (512 ≤ length out.old)) }
    ensures answered { Answered out.new result }
    ensures of_input { Listing (R.remaining input.old) out.new result }
{
    let mut l = begin();
    for _ in 0..u64::MAX {
        let kept = l.kept;
        let Some(filled) = read_more(input, &mut space[..], kept)? else {
            return Ok(finish(l.stage, kept, l.state, space, ring, out));
        };
        l = feed(
            l,
            &mut space[..],
            filled,
            &mut readings[..],
            &mut locations[..],
            &mut sums[..],
            &mut counts[..],
            &mut ring[..],
        );
        if is_refused(l.stage) {
            return Ok(finish(l.stage, l.kept, l.state, space, ring, out));
        }
    }
    Err(Error::from(ErrorKind::TimedOut))
}

// What is to be printed of the input, at the start of `out`, and how many bytes that are: 'with a ring of 64 words, from fresh and with all readings 0'.
pub fn answer<R: Read>(input: &mut R, out: &mut [u8]) -> io::Result<usize>
    requires { 512 ≤ length out.old }
    ensures answered { Answered out.new result }
    ensures of_input { Listing (R.remaining input.old) out.new result }
{
    let mut space = [0u8; 65536];
    let mut readings = [0f32; 196];
    let mut locations = [0f32; 2000];
    let mut sums = [0f32; 2000];
    let mut counts = [0u32; 297];
    let mut ring = [0u16; 64];
    follow_input(
        input,
        &mut space,
        &mut readings,
        &mut locations,
        &mut sums,
        &mut counts,
        &mut ring,
        out,
    )
}
