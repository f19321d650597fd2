// What reading a line answers when it gives no rows. `specs/Answers.antt` gives the number and the
// values of each case.

#[derive(Clone, Copy, Debug, PartialEq, Eq)]
pub enum ReadError {
    // No line of the grammar has this byte there, or none ends there; or the text is too long.
    Broken(u32),
    // A round bracket or a `<` is opened here inside eight open ones.
    Deep(u32),
    // The line has more rows than a plan may have.
    TooMany,
    // The buffer is shorter than the rows.
    Short,
}
