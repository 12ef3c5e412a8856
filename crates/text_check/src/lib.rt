// The check of a keyed text.
#![tactic(auto)]

ghost use Rattle.std.specs.Prelude.{◌≡◌, length};
ghost use Rattle.spec_check.specs.Check.{check};
ghost use Rattle.text_answer.specs.Check.{answered, check_text, WrittenAs};

use base_program::{Finding, Program};
use spec_check::Verdict;
use text_answer::TextAnswer;

// Any bytes at all.
pub fn check_text(s: &[u8]) -> TextAnswer
    ensures { result ≡ check_text s.now }
{
    let k = text_reader::read_text(s);
    let found = k.finding;
    let p = k.program;
    if let Finding::Fault(number, table, entry) = found {
        return TextAnswer {
            verdict: Verdict::Fault(number, table, entry),
            program: base_program::empty_program(),
        };
    }
    let v = check_record::check_record(p);
    text_answer::answer_of(v, p)
}

// The record written into lent buffers and judged there; with a fault the empty record is written over it.
fn write_judged(p: Program, numbers: &mut [u16], values: &mut [f32]) -> Verdict
    requires { (length numbers.old ≡ 2385) × (length values.old ≡ 594) }
    ensures { WrittenAs (answered (check p) p) result numbers.new values.new }
{
    record_writer::write_record(p, numbers, values);
    let v = check_record::check_lent(&numbers[..], &values[..]);
    if let Verdict::Fault(number, table, entry) = v {
        record_writer::write_record(base_program::empty_program(), numbers, values);
        return Verdict::Fault(number, table, entry);
    }
    v
}

// As `check_text`, the record written into lent buffers.
pub fn check_text_lent(s: &[u8], numbers: &mut [u16], values: &mut [f32]) -> Verdict
    requires { (length numbers.old ≡ 2385) × (length values.old ≡ 594) }
    ensures { WrittenAs (check_text s.now) result numbers.new values.new }
{
    let k = text_reader::read_text(s);
    let found = k.finding;
    let p = k.program;
    if let Finding::Fault(number, table, entry) = found {
        record_writer::write_record(base_program::empty_program(), numbers, values);
        return Verdict::Fault(number, table, entry);
    }
    write_judged(p, numbers, values)
}
