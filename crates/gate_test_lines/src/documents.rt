//! Documents of a configuration.
use std::alloc::{AllocError, Global};

/// The documents as a configuration is read from them.
pub fn bytes_of(alloc: Global, documents: &[&str]) -> Result<Vec<Vec<u8>>, AllocError> {
    let mut bytes = Vec::new(alloc);
    for document in documents {
        bytes.push(document.as_bytes().to_vec(alloc)?)?;
    }
    Ok(bytes)
}
