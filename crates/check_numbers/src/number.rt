// The ranges of single numbers.
ghost use Rattle.std.specs.Prelude.{◌≡◌, ◌&&◌, ◌||◌};
ghost use Rattle.spec_check.specs.Ranges.{is_reps, is_interval};
ghost use Rattle.base_program.specs.Ranges.{within, location_counts, sum_counts, is_long_interval};
ghost use Rattle.base_program.specs.Codes.{is_label};
ghost use Rattle.base_program.specs.Entries.{table_at};

// A subroutine: 1-9 or 79-99.
pub fn is_label(k: u8) -> bool
    ensures { result ≡ is_label k }
{
    (1..=9).contains(&k) || (79..=99).contains(&k)
}

pub fn is_reps(n: u8) -> bool
    ensures { result ≡ is_reps n }
{
    (1..=99).contains(&n)
}

// I and M.
pub fn header_in_range(locations: u16, sums: u16) -> bool
    ensures { result ≡ within location_counts locations && within sum_counts sums }
{
    (1..=2000).contains(&locations) && sums <= 2000
}

// A multiple of 8 up to 524,240.
fn is_long_interval(v: u32) -> bool
    ensures { result ≡ is_long_interval v }
{
    v % 8 == 0 && v <= 524240
}

// V of the table of row t, from 0.
#[tactic(auto, unfolding(spec_check::specs::Ranges::is_interval, base_program::specs::Entries::table_at))]
pub fn interval_in_range(t: usize, v: u32) -> bool
    ensures { result ≡ is_interval (table_at t) v }
{
    match t {
        0 => v <= 7 || is_long_interval(v),
        1 => is_long_interval(v),
        _ => true,
    }
}
