//! What the words tell that have been read.

ghost use Rattle.std.specs.Prelude.{◌≡◌, Some, None, OnSome, IfNone};
ghost use Rattle.m4_outcome.specs.Words.{begun, and_word, and_option, and_operand};
ghost use Rattle.m4_words.specs.Told.{understood, IsSound};

use crate::command::kinds_of;
use crate::field::field_named;
use crate::number::{number_of, seed_of};
use crate::options::with_option;
use arrayvec::ArrayVec;
use m4_outcome::{Choices, Command, Kind};

/// What the words tell that have been read: the places that are still wanted, the numbers, the seed and the names of files
/// in those that are filled, and what the options choose. The seed is 0 until it is told.
#[derive(Drop)]
pub(crate) struct Told<'a> {
    pub(crate) wanted: &'static [Kind],
    pub(crate) numbers: ArrayVec<u32, 4>,
    pub(crate) seed: u64,
    pub(crate) files: ArrayVec<&'a str, 3>,
    pub(crate) choices: Choices,
}

impl<'a> Told<'a> {
    /// What is told before any word behind the one that names the command.
    pub(crate) fn begun(command: Command) -> Told<'a>
        ensures begun { understood result ≡ begun command }
        ensures sound { IsSound result }
    {
        Told {
            wanted: kinds_of(command),
            numbers: ArrayVec::new(),
            seed: 0,
            files: ArrayVec::new(),
            choices: Choices::NONE,
        }
    }

    /// One more word, which is an option or an operand, if it is understood.
    pub(crate) fn take(&mut self, word: &'a str) -> Option<()>
        requires sound { IsSound self.old }
        ensures taken { OnSome result (and_word word.now (understood self.old) ≡ Some (understood self.new)) }
        ensures sound { OnSome result (IsSound self.new) }
        ensures refused { IfNone result (and_word word.now (understood self.old) ≡ None) }
    {
        if word.starts_with("--") {
            self.take_option(word)
        } else {
            self.take_operand(word)
        }
    }

    /// One more option: what stands before its first `=` is its name, and what stands behind is its value, which is empty
    /// where there is none.
    fn take_option(&mut self, word: &str) -> Option<()>
        requires sound { IsSound self.old }
        ensures taken { OnSome result (and_option word.now (understood self.old) ≡ Some (understood self.new)) }
        ensures sound { OnSome result (IsSound self.new) }
        ensures refused { IfNone result (and_option word.now (understood self.old) ≡ None) }
    {
        let (name, value) = word.split_once('=').unwrap_or((word, ""));
        self.choices = with_option(self.choices, name, value)?;
        Some(())
    }

    /// One more operand, in the first place that is wanted, if there is one and it takes the word.
    fn take_operand(&mut self, word: &'a str) -> Option<()>
        requires sound { IsSound self.old }
        ensures taken { OnSome result (let so_far = understood self.old in and_operand so_far.wanted word.now so_far ≡ Some (understood self.new)) }
        ensures sound { OnSome result (IsSound self.new) }
        ensures refused { IfNone result (let so_far = understood self.old in and_operand so_far.wanted word.now so_far ≡ None) }
    {
        let [kind, rest @ ..] = self.wanted else {
            return None;
        };
        match kind {
            Kind::FileName => self.files.push(word),
            Kind::Number => self.numbers.push(number_of(word)?),
            Kind::FieldName => {
                let field = field_named(word)?;
                self.numbers.push(field.e());
                self.numbers.push(field.poly());
            }
            Kind::Seed => self.seed = seed_of(word)?,
        }
        self.wanted = rest;
        Some(())
    }
}
