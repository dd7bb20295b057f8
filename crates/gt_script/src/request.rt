use crate::Form;

/// What a line asks for, and in which session, 1 to 128.
#[derive(Debug, Drop)]
pub struct Request {
    pub session: u8,
    pub form: Form,
}
