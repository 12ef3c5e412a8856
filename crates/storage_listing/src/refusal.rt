// The refusals of the ring.
ghost use Rattle.std.specs.Prelude.{◌≡◌};
ghost use Rattle.storage_listing.specs.Listing.{ring_refusal};

use storage_ring::RingState;

// A ring of n words is refused by 31 or 32. The numbers are the document's: the listing answers them.
pub fn check_ring(n: usize, s: RingState) -> Result<(), u8>
    ensures { result ≡ ring_refusal n s }
{
    if n == 0 {
        return Err(31);
    }
    if 32768 < n {
        return Err(31);
    }
    if n <= s.position as usize {
        return Err(32);
    }
    if n < s.filled as usize {
        return Err(32);
    }
    Ok(())
}
