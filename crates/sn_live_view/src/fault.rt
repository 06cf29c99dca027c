/// A look-up is needed, and none is made.
#[derive(Clone, Copy)]
pub struct Unread;
