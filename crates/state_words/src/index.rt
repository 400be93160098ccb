//! Where words stand, by a hash. No clause says that a word is found: whoever finds one tests it.

use norm_lang::list::Listed;
use std::alloc::{AllocError, Global};
use std::collections::BTreeMap;

/// The places of words. Of two with one hash the later alone is found.
#[derive(Drop)]
pub struct Index {
    places: BTreeMap<u64, usize>,
}

/// A hash of 64 bits, after Fowler, Noll and Vo.
fn hash(word: &[u8]) -> u64 {
    let mut hash = 14695981039346656037;
    for byte in word {
        hash = (hash ^ (*byte as u64)).wrapping_mul(1099511628211);
    }
    hash
}

impl Index {
    /// An index of no words.
    pub fn empty(alloc: Global) -> Index {
        Index {
            places: BTreeMap::new(alloc),
        }
    }

    /// The place of a word among words, if it is found.
    pub fn find(&self, words: &[Listed<u8>], word: &[u8]) -> Option<usize> {
        let place = *self.places.get(&hash(word))?;
        match words.get(place) {
            Some(there) if there.items() == word => Some(place),
            _ => None,
        }
    }

    /// Says where a word stands.
    ///
    /// # Errors
    /// `AllocError` if memory runs out.
    pub fn add(&mut self, word: &[u8], place: usize) -> Result<(), AllocError> {
        self.places.insert(hash(word), place)?;
        Ok(())
    }
}
