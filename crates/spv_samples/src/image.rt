//! Modules from words that stand in a text.

use spv_words::{FromRead, Image, WordError, read_image};
use std::alloc::{AllocError, Global};

/// The numbers of a text in hexadecimal, parted by spaces. What is none is left out.
fn words_of(alloc: Global, text: &str) -> Result<Vec<u32>, AllocError> {
    let mut words = Vec::new(alloc);
    for part in text.split_whitespace() {
        if let Ok(word) = u32::from_str_radix(part, 16) {
            words.push(word)?;
        }
    }
    Ok(words)
}

/// The image of the module whose words, with the header's, stand in a text, or why it is none.
pub fn image_of(alloc: Global, text: &str) -> Result<Image, WordError> {
    let Ok(words) = words_of(alloc, text) else {
        return Err(WordError::W9);
    };
    let mut bytes = Vec::new(alloc);
    for word in &words {
        let Ok(()) = bytes.extend_from_slice(&word.to_le_bytes()) else {
            return Err(WordError::W9);
        };
    }
    let (image, _) = read_image(alloc, &mut FromRead::new(bytes.as_slice()))?;
    Ok(image)
}
