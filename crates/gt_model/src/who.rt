/// Who asked: a session, from 1, and the line of the script, from 1.
#[derive(Clone, Copy, Debug, PartialEq, Eq)]
pub struct Who {
    pub session: u8,
    pub line: u32,
}
