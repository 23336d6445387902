//! Memory that windows are cut from, reserved once.

ghost use Rattle.std.specs.Prelude.{◌≡◌, ◌≤◌, IfOk};
ghost use Rattle.m4_mzd.specs.Span.{frame_of_room};

use crate::MOST_WORDS;
use crate::mzd::Home;
use crate::room::Room;
use m4_area::OwnedWords;
use m4_model::NoMemory;
use std::alloc::Global;
use std::marker::Model;
use std::mem::replace;

/// Memory for windows, reserved once: so many words.
#[derive(Drop)]
pub struct Scratch {
    words: OwnedWords,
    alloc: Global,
}

impl Model for Scratch {
    ghost use Rattle.std.specs.Prelude.{ℕ};
    ghost use Rattle.m4_mzd.specs.Span.{IsOneRow};

    ghost Value = { ℕ };

    ghost view = { λ s. s.words.width };

    ghost invariant = { λ s. IsOneRow s.words };
}

impl Scratch {
    /// Memory of so many words.
    pub fn new(alloc: Global, words: u64) -> Result<Scratch, NoMemory>
        requires { words ≤ MOST_WORDS }
        ensures { IfOk result (λ s. s ≡ words) }
    {
        let width = words as usize;
        let words = vec![in alloc; 0u64; width]?;
        Ok(Scratch {
            words: OwnedWords::from_vec(words, 1, width),
            alloc,
        })
    }

    /// Takes all words out as room for windows, with the memory that they go back to, and leaves none. The room can't be let
    /// go: `put_room` takes it back.
    pub fn room(&mut self) -> (Room, Home)
        ensures all { result.0.left ≡ self.old }
        ensures home { result.1.storage ≡ frame_of_room result.0 }
        ensures none_left { self.new ≡ 0 }
    {
        let none = OwnedWords::from_vec(Vec::new(self.alloc), 1, 0);
        let (words, storage) = replace(&mut self.words, none).into_parts();
        (Room { words }, Home { storage })
    }

    /// Takes the room back that was taken out, once all windows are given back to it.
    pub fn put_room(&mut self, room: Room, home: Home)
        requires { home.storage ≡ frame_of_room room }
        ensures { self.new ≡ room.left }
    {
        let Room { words } = room;
        let Home { storage } = home;
        self.words = OwnedWords::from_parts(self.alloc, words, storage);
    }
}
