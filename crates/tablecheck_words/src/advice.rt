// Sentences after document 01: what each fault means, what is allowed, and the form of each instruction.
use crate::Fault;

// What the fault means. Faults 7 to 9 do not exist.
pub fn meaning(number: u8) -> &'static str {
    match number {
        1 => "The text departs from its form.",
        2 => "A number is malformed or outside its range.",
        3 => "There is no such instruction.",
        4 => "The instruction has another count of parameters.",
        5 => "The table cannot have this interval.",
        6 => "This is entry 100.",
        10 => "85 stands in Table 1 or 2, or before the last subroutine's End.",
        11 => "The subroutine's number was there before.",
        12 => "The entry stands in Table 3 outside a subroutine.",
        13 => "The End has nothing to close.",
        14 => "The Else stands in no Then Do, or is its second.",
        15 => "Command 31 or 32 stands in no loop of this table or subroutine.",
        16 => "The entry opens block 12.",
        17 => "An End is missing.",
        18 => "There is no such subroutine.",
        19 => "The subroutine starts a chain of more than 7, or a circle.",
        20 => "A location is 0 or above I on some rep or pass, or a channel lies beyond card 7.",
        21 => "The entry's sums do not fit into M.",
        22 => "The table's stated count is over 60000.",
        _ => "",
    }
}

// What is allowed at a place.
pub fn rule(fault: Fault) -> &'static str {
    match (fault.number, fault.table, fault.entry) {
        (1, 0, 0) => "A program begins with (program I M and ends with ) and nothing behind it.",
        (1, 1, 0) => "Table 1 begins with (table 1 V",
        (1, 2, 0) => "Table 2 begins with (table 2 V",
        (1, 3, 0) => "Table 3 begins with (table 3",
        (1, _, _) =>
            "A table's line is (number parameters), with one space between items, or the ) behind its last entry.",
        (2, 0, _) => "I is 1 to 2000 and M 0 to 2000, each with 1 to 7 digits.",
        (2, _, 0) => "V is a whole number of 1 to 7 digits.",
        (2, _, _) =>
            "Whole numbers have 1 to 7 digits, a location perhaps -- behind it. F, multiplier and offset: an optional -, 1 to 5 digits, at most one point with a digit on each side.",
        (3, _, _) => "Instructions are 1, 2, 30 to 38, 70 to 74, 77, 85 to 89, 91, 92, 94 and 95.",
        (4, _, _) => "An entry has just the parameters of its instruction.",
        (5, 1, _) => "Table 1 has the interval 0 (off), 1 to 7, or a multiple of 8 up to 524240.",
        (5, _, _) => "Table 2 has the interval 0 (off), or a multiple of 8 up to 524240.",
        (6, _, _) => "A table has 0 to 99 entries.",
        (10, _, _) => "Subroutines stand in Table 3, each behind the End of the one before.",
        (11, _, _) => "Each subroutine has a number of its own, 1 to 9 or 79 to 99.",
        (12, _, _) => "In Table 3 an entry stands between an 85 and its End, 95.",
        (13, _, _) => "95 closes what 85, 87 or command 30 opened.",
        (14, _, _) =>
            "94 stands once in a block that command 30 opened, and in no other block inside it.",
        (15, _, _) => "Commands 31 and 32 stand between an 87 and its End, 95.",
        (16, _, _) => "At most 11 blocks are open at a time; 85 is not counted.",
        (17, _, _) => "85, 87 and command 30 each have an End, 95, in the same table.",
        (18, _, _) => "A call's number is that of an 85 in Table 3.",
        (19, _, _) => "A chain has at most 7 subroutines, and none of them twice.",
        (20, _, _) =>
            "Locations are 1 to I, also with reps - 1 added and, where indexed, the loop's count - 1. Channels go up to card 7's last.",
        (21, _, _) => "The reps of all 71 to 74 are at most M.",
        (22, _, _) =>
            "A stated count is at most 60000: 1 an entry, 1 + count x (body + 1) a loop, and a call adds its subroutine's.",
        _ => "",
    }
}

// The form of an instruction, where there is one of this number.
pub fn form(number: u64) -> Option<&'static str> {
    let form = match number {
        1 =>
            "(1 reps range card channel location multiplier offset): reps 1 to 99, range 1 to 18, card 1 to 7, channel 1 to 28",
        2 =>
            "(2 reps range card channel location multiplier offset): reps 1 to 99, range 1 to 18, card 1 to 7, channel 1 to 14",
        30 => "(30 F Z): location Z",
        31 => "(31 X Z): locations X and Z",
        32 => "(32 Z): location Z",
        33 => "(33 X Y Z): locations X, Y and Z",
        34 => "(34 X F Z): locations X and Z",
        35 => "(35 X Y Z): locations X, Y and Z",
        36 => "(36 X Y Z): locations X, Y and Z",
        37 => "(37 X F Z): locations X and Z",
        38 => "(38 X Y Z): locations X, Y and Z",
        70 => "(70 reps location): reps 1 to 99",
        71 => "(71 reps location): reps 1 to 99",
        72 => "(72 reps location): reps 1 to 99",
        73 => "(73 reps location): reps 1 to 99",
        74 => "(74 reps location): reps 1 to 99",
        77 => "(77 code): code 10, 100 or 110",
        85 => "(85 subroutine): subroutine 1 to 9 or 79 to 99",
        86 => "(86 command): command 0 to 29, 31, 41 to 48, 51 to 58 or 79 to 99",
        87 => "(87 delay count): delay 0, count 1 to 9999",
        88 =>
            "(88 X relation Y command): locations X and Y, relation 1 to 4, command 0 to 32, 41 to 48, 51 to 58 or 79 to 99",
        89 =>
            "(89 X relation F command): location X, relation 1 to 4, command 0 to 32, 41 to 48, 51 to 58 or 79 to 99",
        91 => "(91 flag command): flag 10 to 29, command 0 to 32, 41 to 48, 51 to 58 or 79 to 99",
        92 =>
            "(92 into interval command): into 0 to 1439, interval 1 to 1440, command 0 to 32, 41 to 48, 51 to 58 or 79 to 99",
        94 => "(94)",
        95 => "(95)",
        _ => return None,
    };
    Some(form)
}
