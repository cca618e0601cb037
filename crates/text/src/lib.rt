// The text of a file (document 01, "The file"): lines of 32 lower-case hexadecimal digits and a line feed, one frame of
// 16 bytes a line. Reading gives numbers 1 to 3 ("Numbers handed back") or the frames; writing gives the lines back.
// Crates text_decode and text_encode have the code.
#![tactic(auto)]

// The answer buffer's length, where one is lent. No Option, since each call says what is not lent.
#[derive(Clone, Copy)]
pub enum AnswerRoom {
    NotLent,
    Lent(usize),
}
