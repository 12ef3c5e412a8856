// What the listing program prints of its input, and how far it has come with what it has read.
#![tactic(auto)]

// What the input so far has come to: its text, the lines behind a text that passed, or a refusal by its number, table and entry.
#[derive(Clone, Copy)]
pub enum Stage {
    Text,
    Lines,
    Refused(u8, u8, u8),
}
