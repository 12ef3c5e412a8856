// How far indexed locations are moved up: the uppermost mark has it.
ghost use Rattle.std.specs.Prelude.{◌≡◌, ◌<◌};
ghost use Rattle.scan_marks.specs.Marks.{stack};
ghost use Rattle.scan_marks.specs.Move.{Marked, shift_to};

pub fn shift_of(marks: &[u64], top: usize) -> usize
    requires { Marked marks.now top }
    ensures { (result ≡ shift_to (stack marks.now top)) × (result < 65536) }
{
    (marks[top] % 65536) as usize
}
