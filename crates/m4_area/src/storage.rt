//! The memory that a rectangle was made from, and the right to free it.

ghost use Rattle.std.specs.Prelude.{◌≡◌, ◌+◌, ◌*◌, ◌⊎◌, List, ℕ, length};
ghost use Rattle.std.specs.Vec.{vec_len, vec_ptr, with_items};
ghost use base.Fml.{ftrue, fex, fall, fwand, fsep, feq};
ghost use denote.Builtin.{u64};
ghost use denote.Index.{row};
ghost use base.Fraction.{full_share};
ghost use Rattle.std.specs.List.{All, concat};
ghost use Rattle.m4_area.specs.Storage.{Frame, IsWhole};
ghost use Rattle.m4_area.specs.Detached.{DetachedAs};

use crate::area::Area;
use std::marker::{Move, Owns};

/// The right to free the words of a whole rectangle, while they are out as one.
pub struct Storage {
    vec: Vec<u64>,
}

impl Owns for Storage {
    ghost Value = { Frame };

    ghost shr_at = { λ _ _ _. ftrue };
}

impl Move for Storage {
    ghost own_val = { λ f vs. fex Inside (λ v. fex (IsWhole f) (λ _. fsep (feq ℕ v.vec.len (f.rows * f.width)) (fall (List ℕ) (λ xs. fwand (fsep (feq ℕ (length xs) (f.rows * f.width)) (row u64 full_share xs f.place.block f.place.base)) (Fields.own_val (record { vec = with_items v.vec xs }) vs))))) };
}

// It owns words, and a `&` to it shows nothing.
unsafe impl Send for Storage {}

unsafe impl Sync for Storage {}

/// The words of the `Vec` as rows of `width` words, whose first words lie `stride` words apart, and the right to free
/// them.
pub(crate) fn detach(vec: Vec<u64>, rows: usize, width: usize, stride: usize) -> (Area, Storage)
    requires words { vec_len vec ≡ rows * width }
    requires tight { (stride ≡ width) ⊎ (width ≡ 0) }
    ensures { DetachedAs (vec_ptr vec) vec.items rows width stride result.0 result.1 }
{
    (Area {}, Storage { vec })
}

/// The rows of a whole rectangle, as the `Vec` that they were made from.
pub(crate) fn attach(area: Area, storage: Storage) -> Vec<u64>
    requires block { area.block ≡ storage.place.block }
    requires first { area.first ≡ storage.place.base + storage.skip * 8 }
    requires step { area.step ≡ storage.place.stride * 8 }
    requires rows { length area.rows ≡ storage.rows }
    requires widths { All (λ row. length row ≡ storage.width) area.rows }
    ensures { result.items ≡ concat area.rows }
{
    let Area {} = area;
    let Storage { vec } = storage;
    vec
}
