//! The words of a matrix, which are freed with it.

ghost use Rattle.std.specs.Prelude.{◌≡◌, ◌+◌, ◌*◌, ◌^◌, ◌<◌, [], max};
ghost use Rattle.std.specs.Vec.{vec_len};
ghost use Rattle.m4_area.specs.Storage.{frame_of, rows_of};

use crate::storage::Storage;
use crate::words::Words;
use std::alloc::Global;
use std::marker::Model;
use std::mem::replace;

mod lends;

/// A whole rectangle of words, and the right to free them.
pub struct OwnedWords {
    words: Words,
    storage: Storage,
    alloc: Global,
}

impl Model for OwnedWords {
    ghost use Rattle.std.specs.Prelude.{◌≡◌};
    ghost use Rattle.m4_area.specs.Rectangle.{Rectangle};
    ghost use Rattle.m4_area.specs.Storage.{frame_of};

    ghost Value = { Rectangle };

    ghost view = { λ o. o.words };

    ghost invariant = { λ o. o.storage ≡ frame_of o.words };
}

impl OwnedWords {
    /// The words of the `Vec`, as `rows` rows of `width` words.
    pub fn from_vec(vec: Vec<u64>, rows: usize, width: usize) -> OwnedWords
        requires words { vec_len vec ≡ rows * width }
        requires small { rows * width + rows + width < 2 ^ 60 }
        ensures rows { result.rows ≡ rows }
        ensures width { result.width ≡ width }
        ensures words { result.words ≡ rows_of rows width vec.items }
        ensures first { result.skip ≡ 0 }
        ensures no_gap { result.place.stride ≡ max width 1 }
    {
        let alloc = *vec.allocator();
        let (words, storage) = Words::from_vec(vec, rows, width);
        OwnedWords {
            words,
            storage,
            alloc,
        }
    }

    /// The words, for reading.
    #[inline]
    pub fn words(&self) -> &Words
        ensures { result.now ≡ self.now }
    {
        &self.words
    }

    /// The rectangle, and the right to free its words. It is whole again once `from_parts` is given both.
    pub fn into_parts(self) -> (Words, Storage)
        ensures words { result.0 ≡ self }
        ensures storage { result.1 ≡ frame_of self }
    {
        let OwnedWords {
            words,
            storage,
            alloc: _,
        } = self;
        (words, storage)
    }

    /// The rectangle that the storage waits for, whatever its words are by now.
    pub fn from_parts(alloc: Global, words: Words, storage: Storage) -> OwnedWords
        requires { storage ≡ frame_of words }
        ensures { result ≡ words }
    {
        OwnedWords {
            words,
            storage,
            alloc,
        }
    }
}

impl OwnedWords {
    /// A rectangle of no words.
    pub fn none(alloc: Global) -> OwnedWords
        ensures rows { result.rows ≡ 0 }
        ensures width { result.width ≡ 0 }
        ensures words { result.words ≡ [] }
    {
        OwnedWords::from_vec(Vec::new(alloc), 0, 0)
    }

    /// Takes the rectangle out, and leaves one of no words.
    pub fn take(&mut self) -> (Words, Storage)
        ensures words { result.0 ≡ self.old }
        ensures storage { result.1 ≡ frame_of self.old }
        ensures left { self.new.rows ≡ 0 }
        ensures left_width { self.new.width ≡ 0 }
    {
        let left = OwnedWords::none(self.alloc);
        replace(self, left).into_parts()
    }

    /// Puts a rectangle back that was taken out, whatever its words are by now.
    pub fn put(&mut self, words: Words, storage: Storage)
        requires { storage ≡ frame_of words }
        ensures { self.new ≡ words }
    {
        *self = OwnedWords::from_parts(self.alloc, words, storage);
    }
}

impl Drop for OwnedWords {
    fn drop(self) {
        let OwnedWords {
            words,
            storage,
            alloc: _,
        } = self;
        drop(words.into_vec(storage));
    }
}
