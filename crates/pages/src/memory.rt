//! Pages in memory.

ghost use Rattle.std.specs.Prelude.{◌≡◌, ◌≤◌, ◌<◌, ◌+◌, ◌^◌, [], true, map, length, All};
ghost use Rattle.pages.specs.Calls.{Limits};
ghost use Rattle.pages.specs.Map.{written_over};

use crate::calls::{Pages, WritePages};
use sqlval::{Damage, Fault, R};
use std::alloc::Global;

/// Pages in memory.
#[derive(Drop)]
pub struct MemPages {
    alloc: Global,
    pages: Vec<Vec<u8>>,
    page_size: usize,
    most: u32,
    /// The place of the page that was loaded last.
    at: usize,
    ghost few: { (length pages.items ≤ most) × (most < 2 ^ 32) },
    ghost each: { All (λ page. length page.items ≡ page_size) pages.items },
}

impl MemPages {
    ghost use Rattle.pages.specs.Memory.{limits_in_memory, pages_in_memory};

    /// No pages yet, of so many bytes each, and at most so many.
    pub fn new(alloc: Global, page_size: usize, most: u32) -> MemPages
        ensures empty { pages_in_memory result ≡ [] }
        ensures limits { limits_in_memory result ≡ record { page = page_size; most = most } }
    {
        MemPages {
            alloc,
            pages: Vec::new(alloc),
            page_size,
            most,
            at: 0,
        }
    }
}

/// Writes bytes over those of a page from an offset on.
fn put_part(page: &mut Vec<u8>, offset: usize, bytes: &[u8])
    requires { offset + length bytes.now ≤ length page.old.items }
    ensures written { page.new.items ≡ written_over offset bytes.now page.old.items }
    ensures long { length page.new.items ≡ length page.old.items }
{
    page[offset..offset + bytes.len()].copy_from_slice(bytes);
}

impl Pages for MemPages {
    ghost use Rattle.pages.specs.Memory.{limits_in_memory, loaded_in_memory, pages_in_memory};

    ghost Base = { Limits };

    ghost below = { limits_in_memory };

    ghost tells = { λ _. true };

    ghost limits = { λ limits. limits };

    ghost map = { pages_in_memory };

    ghost count = { λ m. length (pages_in_memory m) };

    ghost held = { loaded_in_memory };

    ghost failures = { λ _. (0, 0) };

    fn size(&self) -> u32 {
        self.pages.len() as u32
    }

    fn page_size(&self) -> usize {
        self.page_size
    }

    fn load(&mut self, number: u32) -> R<()> {
        if number == 0 || number as usize > self.pages.len() {
            return Err(Fault::Damaged(Damage::Size, number));
        }
        self.at = number as usize - 1;
        Ok(())
    }

    fn loaded(&self) -> &[u8] {
        match self.pages.get(self.at) {
            Some(page) => page.as_slice(),
            None => &[],
        }
    }
}

impl WritePages for MemPages {
    fn put(&mut self, number: u32, bytes: &[u8]) -> R<()> {
        if number == 0 || number as usize > self.pages.len() {
            return Err(Fault::Damaged(Damage::Size, number));
        }
        if bytes.len() != self.page_size {
            return Err(Fault::Damaged(Damage::Page, number));
        }
        self.pages[number as usize - 1].copy_from_slice(bytes);
        Ok(())
    }

    fn write_over(&mut self, number: u32, offset: usize, bytes: &[u8]) -> R<()> {
        if number == 0 || number as usize > self.pages.len() {
            return Err(Fault::Damaged(Damage::Size, number));
        }
        if self.page_size < offset || self.page_size - offset < bytes.len() {
            return Err(Fault::Damaged(Damage::Page, number));
        }
        put_part(&mut self.pages[number as usize - 1], offset, bytes);
        Ok(())
    }

    fn grow(&mut self) -> R<u32> {
        if self.pages.len() == self.most as usize {
            return Err(Fault::Full);
        }
        self.pages.push(vec![in self.alloc; 0; self.page_size]?)?;
        Ok(self.pages.len() as u32)
    }
}
