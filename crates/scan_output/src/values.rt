// Values written to the ring. `store` is four numbers: the ring's position and filled count, the array id, and 1 where a start word waits.
ghost use Rattle.std.specs.Prelude.{◌≡◌};
ghost use Rattle.spec_buffers.specs.Held.{out_of};
ghost use Rattle.spec_buffers.specs.Output.{write_out, sample_out, time_out};
ghost use Rattle.scan_output.specs.Words.{put_out, start_out};
ghost use Rattle.scan_output.specs.Lent.{Room, Sampled};

use base_program::TimeCode;
use storage_ring::RingState;

// A word goes to the ring's position.
fn put_word(w: u16, ring: &mut [u16], store: &mut [u16])
    requires { Room ring.old store.old }
    ensures { out_of ring.new store.new ≡ put_out w (out_of ring.old store.old) }
{
    let before = RingState {
        position: store[0],
        filled: store[1],
    };
    let after = storage_ring::write_word(ring, before, w);
    store[0] = after.position;
    store[1] = after.filled;
}

// 'its start word is written with its first value'
fn write_start(ring: &mut [u16], store: &mut [u16])
    requires { Room ring.old store.old }
    ensures { out_of ring.new store.new ≡ start_out (out_of ring.old store.old) }
{
    if store[3] == 1 {
        let w = storage_word::start_word(store[2]);
        put_word(w, ring, store);
        store[3] = 0;
    }
}

// The start word, if it waits, and the value's word.
pub fn write_value(v: f32, ring: &mut [u16], store: &mut [u16])
    requires { Room ring.old store.old }
    ensures { out_of ring.new store.new ≡ write_out v (out_of ring.old store.old) }
{
    write_start(ring, store);
    put_word(storage_value::value_word(v), ring, store);
}

// 70: the locations from `at` on. One that is not finite is written as -99,999.
pub fn sample(l: &[f32], reps: u8, at: usize, ring: &mut [u16], store: &mut [u16])
    requires { Sampled l.now reps at ring.old store.old }
    ensures { out_of ring.new store.new ≡ sample_out l.now reps at (out_of ring.old store.old) }
{
    let first = at - 1;
    for x in &l[first..first + reps as usize] {
        write_value(*x, ring, store);
    }
}

// 77: the day, hours × 100 + minutes, or both.
pub fn store_time(code: TimeCode, day: u16, clock: u16, ring: &mut [u16], store: &mut [u16])
    requires { Room ring.old store.old }
    ensures { out_of ring.new store.new ≡ time_out code day clock (out_of ring.old store.old) }
{
    match code {
        TimeCode::HoursMinutes => write_value(clock as f32, ring, store),
        TimeCode::Day => write_value(day as f32, ring, store),
        TimeCode::DayHoursMinutes => {
            write_value(day as f32, ring, store);
            write_value(clock as f32, ring, store);
        }
    }
}
