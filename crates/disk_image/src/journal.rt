//! The changes of two files that are still to be carried out.

use crate::image::Image;
use std::alloc::{AllocError, Global};
use std::cell::RefCell;
use std::rc::Rc;

/// Both files and their changes, as several owners share them: each share is the same journal.
#[derive(Drop)]
pub struct Journal {
    image: Rc<RefCell<Image>>,
}

impl Journal {
    /// A journal of files with these contents, without a change.
    pub fn new(alloc: Global, db: Vec<u8>, log: Vec<u8>) -> Result<Journal, AllocError> {
        Ok(Journal {
            image: Rc::new(alloc, RefCell::new(Image::new(alloc, db, log)))?,
        })
    }

    /// The same journal.
    pub fn share(&self) -> Result<Journal, AllocError> {
        Ok(Journal {
            image: Rc::clone(&self.image)?,
        })
    }

    pub(crate) fn image(&self) -> &RefCell<Image> {
        &self.image
    }

    /// How many bytes the changes take.
    pub fn len(&self) -> usize {
        match self.image.try_borrow() {
            Ok(image) => image.noted().len(),
            Err(_) => 0,
        }
    }

    /// Copies the changes, if there is just room for them, and then has none. Answers whether it did.
    pub fn take(&self, out: &mut [u8]) -> bool {
        match self.image.try_borrow_mut() {
            Ok(mut image) => image.take(out),
            Err(_) => false,
        }
    }
}
