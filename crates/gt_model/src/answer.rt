use crate::{Done, Refusal};

pub type Answer = Result<Done, Refusal>;
