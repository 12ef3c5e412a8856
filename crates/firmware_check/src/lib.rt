// The library's checks of a text and of a record.
#![tactic(auto)]

ghost use Rattle.firmware_check.specs.Checks.{TextTold, RecordTold};

use firmware_buffers::is_record;
use firmware_verdict::put_verdict;

pub fn check_text(
    text: &[u8],
    numbers: &mut [u16],
    values: &mut [f32],
    table: &mut u8,
    entry: &mut u8,
    first: &mut u32,
    second: &mut u32,
) -> u8
    ensures { TextTold text.now numbers.old values.old table.old entry.old first.old second.old result numbers.new values.new table.new entry.new first.new second.new }
{
    if !is_record(numbers.len(), values.len()) {
        return 31;
    }
    let v = text_check::check_text_lent(text, numbers, values);
    put_verdict(v, table, entry, first, second)
}

pub fn check_record(
    numbers: &[u16],
    values: &[f32],
    table: &mut u8,
    entry: &mut u8,
    first: &mut u32,
    second: &mut u32,
) -> u8
    ensures { RecordTold numbers.now values.now table.old entry.old first.old second.old result table.new entry.new first.new second.new }
{
    if !is_record(numbers.len(), values.len()) {
        return 31;
    }
    let v = check_record::check_lent(numbers, values);
    let told = check_known::by_number(numbers, v);
    put_verdict(told, table, entry, first, second)
}
