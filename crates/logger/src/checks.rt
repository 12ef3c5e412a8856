// The checks of a text and of a record.
ghost use Rattle.logger.specs.Checks.{RecordChecked, TextChecked};

use base_program::Program;
use spec_check::Verdict;
use text_answer::TextAnswer;

// Any bytes at all.
pub fn check_text(s: &[u8]) -> TextAnswer
    ensures { TextChecked s.now result }
{
    text_check::check_text(s)
}

// Any record at all.
pub fn check_record(p: Program) -> Verdict
    ensures { RecordChecked p result }
{
    check_record::check_record(p)
}
