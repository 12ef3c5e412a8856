// The check of a text and of a record.
ghost use Rattle.firmware_check.specs.Checks.{TextTold, RecordTold};

#[unsafe(no_mangle)]
pub extern "C" fn yukeira_check_text(
    text: &[u8],
    numbers: &mut [u16],
    values: &mut [f32],
    table: &mut u8,
    entry: &mut u8,
    first: &mut u32,
    second: &mut u32,
) -> u8
    ensures { TextTold text.now numbers.old values.old table.old entry.old first.old second.old result numbers.new values.new table.new entry.new first.new second.new }
{
    firmware_check::check_text(text, numbers, values, table, entry, first, second)
}

#[unsafe(no_mangle)]
pub extern "C" fn yukeira_check_record(
    numbers: &[u16],
    values: &[f32],
    table: &mut u8,
    entry: &mut u8,
    first: &mut u32,
    second: &mut u32,
) -> u8
    ensures { RecordTold numbers.now values.now table.old entry.old first.old second.old result table.new entry.new first.new second.new }
{
    firmware_check::check_record(numbers, values, table, entry, first, second)
}
