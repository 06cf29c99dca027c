//! Room for the body of one record.

use crate::body::BODY_MAX;
use std::alloc::{AllocError, Global};

/// Room for the longest body of a record.
#[derive(Drop)]
pub struct Buffer {
    pub(crate) body: Box<[u8; 66_048]>,
}

impl Buffer {
    /// Takes the memory.
    pub fn new(alloc: Global) -> Result<Self, AllocError> {
        let body = Box::new(alloc, [0; BODY_MAX])?;
        Ok(Buffer { body })
    }
}
