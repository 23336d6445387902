//! A rectangle of all the words of a `Vec`.

ghost use Rattle.std.specs.Prelude.{◌≡◌, ◌+◌, ◌*◌, ◌^◌, ◌<◌, max};
ghost use Rattle.std.specs.Vec.{vec_len};
ghost use Rattle.std.specs.List.{concat};
ghost use Rattle.m4_area.specs.Rectangle.{HasShape};
ghost use Rattle.m4_area.specs.Storage.{frame_of, rows_of};

use super::Words;
use crate::storage::{Storage, attach, detach};

impl Words {
    /// The words of the `Vec` as `rows` rows of `width` words, and the right to free them.
    pub fn from_vec(mut vec: Vec<u64>, rows: usize, width: usize) -> (Words, Storage)
        requires words { vec_len vec ≡ rows * width }
        requires small { rows * width + rows + width < 2 ^ 60 }
        ensures rows { result.0.rows ≡ rows }
        ensures width { result.0.width ≡ width }
        ensures words { result.0.words ≡ rows_of rows width vec.items }
        ensures first { result.0.skip ≡ 0 }
        ensures no_gap { result.0.place.stride ≡ max width 1 }
        ensures storage { result.1 ≡ frame_of result.0 }
    {
        let base = vec.as_mut_ptr();
        let stride = width.max(1);
        let (area, storage) = detach(vec, rows, width, stride);
        (
            Words {
                base,
                skip: 0,
                rows,
                width,
                stride,
                area,
            },
            storage,
        )
    }

    /// The words of a whole rectangle, row after row, as the `Vec` that it was made from.
    pub fn into_vec(self, storage: Storage) -> Vec<u64>
        requires { storage ≡ frame_of self }
        ensures { result.items ≡ concat self.words }
    {
        let Words {
            base: _,
            skip: _,
            rows: _,
            width: _,
            stride: _,
            area,
        } = self;
        attach(area, storage)
    }
}
