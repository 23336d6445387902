ghost use Rattle.std.specs.Prelude.{◌≡◌, ◌≤◌, ◌<◌, length, false, None, IsTrue, IfOk, OnOk, OnErr, is_some};
ghost use Rattle.m4_io.specs.Memory.{one_more};
ghost use Rattle.m4_io.specs.Outside.{Rose};
ghost use Rattle.m4_io.specs.Real.{RealFiles};

use crate::{Failed, Shelf};
use std::fs;
use std::io::Read;
use std::marker::Model;
use std::rt::Files;

/// A shelf of real files, which are opened by their names. No clause knows what they hold.
///
/// A folder may be started, and fails when it is read.
#[derive(Drop)]
pub struct FileShelf<R: Files> {
    rt: R,
    file: Option<R::File>,
    faults: u64,
}

impl<R: Files> Model for FileShelf<R> {
    ghost Value = { RealFiles };

    ghost view = { λ s. record { started = is_some s.file; faults = s.faults } };
}

impl<R: Files> FileShelf<R> {
    /// A shelf of the files that the runtime reaches.
    pub fn new(rt: R) -> FileShelf<R>
        ensures { result ≡ record { started = false; faults = 0 } }
    {
        FileShelf {
            rt,
            file: None,
            faults: 0,
        }
    }

    // Counts a fault.
    fn fail(&mut self) -> Failed
        ensures counted { self.new ≡ record self.old { faults = one_more self.old.faults } }
        ensures later { self.old.faults ≤ self.new.faults }
    {
        self.faults = self.faults.saturating_add(1);
        Failed
    }
}

impl<R: Files> Shelf for FileShelf<R> {
    ghost started = { λ s. s.started };

    ghost stock = { λ _. None };

    ghost rest = { λ _. None };

    ghost faults = { λ s. s.faults };

    fn start(&mut self, name: &str) -> Result<(), Failed> {
        match fs::open(&self.rt, name) {
            Ok(file) => {
                self.file = Some(file);
                Ok(())
            }
            Err(_) => Err(self.fail()),
        }
    }

    fn read(&mut self, into: &mut [u8]) -> Result<usize, Failed> {
        let Some(file) = &mut self.file else {
            unreachable!()
        };
        match file.read(into) {
            Ok(count) => Ok(count),
            Err(_) => Err(self.fail()),
        }
    }
}
