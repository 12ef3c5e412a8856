// What the listing program prints where its input ends.
#![tactic(auto)]

ghost use Rattle.std.specs.Prelude.{◌≤◌, ◌≡◌, length, take};
ghost use Rattle.spec_listing.specs.Reading.{Finished};

use listing_items::put_refusal;
use listing_shown::put_listing;
use spec_calls::State;
use spec_check::Verdict;
use spec_listing::Stage;

// Puts it at the start of out and answers its length. Of a text without an end, all of the input is the text.
pub fn finish(
    stage: Stage,
    kept: usize,
    state: State,
    space: &[u8],
    ring: &[u16],
    out: &mut [u8],
) -> usize
    requires { (kept ≤ length space.now) × ((length ring.now ≡ 64) × (512 ≤ length out.old)) }
    ensures finished { Finished stage (take kept space.now) state ring.now (take result out.new) }
    ensures upper_bound { result ≤ length out.old }
{
    match stage {
        Stage::Refused(number, table, entry) => put_refusal(number, table, entry, out, 0),
        Stage::Lines => {
            if kept != 0 {
                return put_refusal(1, 0, 0, out, 0);
            }
            put_listing(state, ring, out)
        }
        Stage::Text => {
            let checked = text_check::check_text(&space[..kept]);
            let v = checked.verdict;
            match v {
                Verdict::Fault(number, table, entry) => put_refusal(number, table, entry, out, 0),
                Verdict::Pass(_, _) => put_listing(state, ring, out),
            }
        }
    }
}
