ghost use Rattle.mf_store.specs.Rows.{HasShape};
ghost use Rattle.mf_store.specs.Stored.{StoredRows, with_room, with_row};
ghost use Rattle.std.specs.Bool.{Decides};
ghost use Rattle.std.specs.Prelude.{◌≡◌, ◌<◌, [], Some, length, max, slice_get, OnErr, OnOk};

use crate::pages::Pages;
use crate::row::Row;
use crate::strip::pack;
use mf_fraction::Frac;
use std::alloc::{AllocError, Global};
use std::marker::Model;

// Rows under numbers from 0, each packed in a strip: a value that is no whole number is in the list of fractions.
#[derive(Debug, Drop)]
pub(crate) struct PackedRows {
    word_count: usize,
    value_count: usize,
    pages: Pages,
    fractions: Vec<Frac>,
    // The strip that is being packed, kept so that adding a row takes no memory.
    strip: Vec<u64>,
    // How many further rows have been promised room.
    room: usize,
}

impl Model for PackedRows {
    ghost use Rattle.mf_store.specs.Packed.{row_of};
    ghost use Rattle.mf_store.specs.Stored.{StoredRows, IsPacked};
    ghost use Rattle.std.specs.Prelude.{map, vec_capacity};

    ghost Value = { StoredRows };

    ghost view = { λ p. record { word_count = p.word_count; value_count = p.value_count; rows = map (row_of p.value_count p.fractions.items) p.pages.strips; room = p.room } };

    ghost invariant = { λ p. IsPacked p.word_count p.value_count p.room p.pages p.fractions.items (vec_capacity p.fractions) (vec_capacity p.strip) };
}

impl PackedRows {
    pub(crate) fn new(alloc: Global, word_count: usize, value_count: usize) -> PackedRows
        ensures { result ≡ record { word_count = word_count; value_count = value_count; rows = []; room = 0 } }
    {
        PackedRows {
            word_count,
            value_count,
            pages: Pages::new(alloc, value_count.saturating_add(word_count)),
            fractions: Vec::new(alloc),
            strip: Vec::new(alloc),
            room: 0,
        }
    }

    pub(crate) fn len(&self) -> usize
        ensures { result ≡ length self.now.rows }
    {
        self.pages.len()
    }

    pub(crate) fn room(&self) -> usize
        ensures { result ≡ self.now.room }
    {
        self.room
    }

    // Whether the row with this number is `row`.
    pub(crate) fn is_at(&self, number: usize, row: &Row) -> bool
        requires number { number < length self.now.rows }
        requires shape { HasShape self.now.word_count self.now.value_count row.now }
        ensures { Decides result (slice_get self.now.rows number ≡ Some row.now) }
    {
        row.is_in(self.pages.get(number), self.fractions.as_slice())
    }

    // Writes the row with this number.
    pub(crate) fn read(&self, number: usize, into: &mut Row)
        requires number { number < length self.now.rows }
        requires shape { HasShape self.now.word_count self.now.value_count into.old }
        ensures { slice_get self.now.rows number ≡ Some into.new }
    {
        into.unpack(self.pages.get(number), self.fractions.as_slice());
    }

    // Adds a row, which takes no memory.
    pub(crate) fn push(&mut self, row: &Row)
        requires room { 0 < self.old.room }
        requires shape { HasShape self.old.word_count self.old.value_count row.now }
        ensures { self.new ≡ with_row self.old row.now }
    {
        pack(row, &mut self.strip, &mut self.fractions);
        self.pages.push(self.strip.as_slice());
        self.room -= 1;
    }

    // Makes room for so many further rows.
    pub(crate) fn reserve(&mut self, more: usize) -> Result<(), AllocError>
        ensures ok { OnOk result (self.new ≡ with_room self.old (max self.old.room more)) }
        ensures err { OnErr result (self.new ≡ self.old) }
    {
        if more <= self.room {
            return Ok(());
        }
        let Some(fractions) = more.checked_mul(self.value_count) else {
            return Err(AllocError);
        };
        self.pages.reserve(more)?;
        self.fractions.reserve(fractions)?;
        self.strip.clear();
        self.strip.reserve(self.pages.width())?;
        self.room = more;
        Ok(())
    }
}
