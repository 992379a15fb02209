ghost use Rattle.mf_store.specs.Strips.{Strips};
ghost use Rattle.std.specs.Prelude.{◌≡◌, ◌<◌, ◌≤◌, ◌+◌, ◌-◌, ◌++◌, ◌∷◌, [], drop, get_or, length, take, vec_len, vec_capacity, OnOk};

use std::alloc::{AllocError, Global};
use std::marker::Model;

// How many strips a page holds.
const PAGE: usize = 1024;

// How many pages there are at most, so that the strips can be counted.
const MOST_PAGES: usize = usize::MAX / PAGE;

// Strips of words, all of one width, in pages of 1,024 strips.
#[derive(Debug, Drop)]
pub(crate) struct Pages {
    pages: Vec<Vec<u64>>,
    width: usize,
    len: usize,
}

impl Model for Pages {
    ghost use Rattle.mf_store.specs.Strips.{Strips, IsPaged, strips_of};
    ghost use Rattle.std.specs.Prelude.{◌*◌, ◌-◌, ◌≤◌, length, map, vec_capacity};
    ghost use Rattle.std.specs.List.{All};

    ghost Value = { Strips };

    ghost view = { λ p. record { width = p.width; strips = strips_of p.width p.len (map (λ page. page.items) p.pages.items); room = 1024 * length p.pages.items - p.len } };

    ghost invariant = { λ p. IsPaged p.width p.len (map (λ page. page.items) p.pages.items) × All (λ page. 1024 * p.width ≤ vec_capacity page) p.pages.items };
}

impl Pages {
    pub(crate) fn new(alloc: Global, width: usize) -> Pages
        ensures { result ≡ record { width = width; strips = []; room = 0 } }
    {
        Pages {
            pages: Vec::new(alloc),
            width,
            len: 0,
        }
    }

    pub(crate) fn len(&self) -> usize
        ensures { result ≡ length self.now.strips }
    {
        self.len
    }

    pub(crate) fn width(&self) -> usize
        ensures { result ≡ self.now.width }
    {
        self.width
    }

    // The strip with this number.
    pub(crate) fn get(&self, number: usize) -> &[u64]
        requires { number < length self.now.strips }
        ensures strip { result.now ≡ get_or self.now.strips number [] }
        ensures width { length result.now ≡ self.now.width }
    {
        let page = self.pages[number / PAGE].as_slice();
        part(page, number % PAGE * self.width, self.width)
    }

    // Adds a strip, which takes no memory.
    pub(crate) fn push(&mut self, strip: &[u64])
        requires width { length strip.now ≡ self.old.width }
        requires room { 0 < self.old.room }
        ensures { self.new ≡ record { width = self.old.width; strips = self.old.strips ++ strip.now ∷ []; room = self.old.room - 1 } }
    {
        let page = self.len / PAGE;
        fill(&mut self.pages[page], strip);
        self.len += 1;
    }

    // Makes room for so many further strips.
    pub(crate) fn reserve(&mut self, more: usize) -> Result<(), AllocError>
        ensures width { self.new.width ≡ self.old.width }
        ensures strips { self.new.strips ≡ self.old.strips }
        ensures room { self.old.room ≤ self.new.room }
        ensures ok { OnOk result (more ≤ self.new.room) }
    {
        let Some(wanted) = self.len.checked_add(more) else {
            return Err(AllocError);
        };
        let missing = wanted.div_ceil(PAGE).saturating_sub(self.pages.len());
        for _ in 0..missing {
            self.add_page()?;
        }
        Ok(())
    }

    fn add_page(&mut self) -> Result<(), AllocError>
        ensures width { self.new.width ≡ self.old.width }
        ensures strips { self.new.strips ≡ self.old.strips }
        ensures room { self.old.room ≤ self.new.room }
        ensures ok { OnOk result (self.old.room + 1024 ≤ self.new.room) }
    {
        if self.pages.len() >= MOST_PAGES {
            return Err(AllocError);
        }
        let Some(words) = PAGE.checked_mul(self.width) else {
            return Err(AllocError);
        };
        let alloc = *self.pages.allocator();
        let page = Vec::with_capacity(alloc, words)?;
        self.pages.push(page)?;
        Ok(())
    }
}

fn part(page: &[u64], from: usize, width: usize) -> &[u64]
    requires { from + width ≤ length page.now }
    ensures words { result.now ≡ take width (drop from page.now) }
    ensures width { length result.now ≡ width }
{
    &page[from..from + width]
}

// Adds the words at the end of the page, which has room for them.
fn fill(page: &mut Vec<u64>, words: &[u64])
    requires { vec_len page.old + length words.now ≤ vec_capacity page.old }
    ensures items { page.new.items ≡ page.old.items ++ words.now }
    ensures capacity { vec_capacity page.old ≤ vec_capacity page.new }
{
    let Ok(()) = page.extend_from_slice(words) else {
        unreachable!()
    };
}
