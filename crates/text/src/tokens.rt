// A token of a text.
// A word is a part of the text itself.
#[derive(Clone, Copy)]
pub enum Token<'a> {
    Open,
    Close,
    Word(&'a [u8]),
    Number(u32),
    Name(u32),
}
