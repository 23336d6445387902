//! Every bit of a word at a multiple of a width, gathered side by side in as many steps as the width's logarithm tells, and bits
//! that are spread again: Warren, "Hacker's Delight", section 7-4.

ghost use Rattle.std.specs.Prelude.{◌≡◌, ℕ, ◌+◌, ◌*◌, ◌^◌, ◌%◌, ◌<◌, ◌==◌, ◌||◌, min, max, IsTrue};
ghost use Rattle.std.specs.Int.{bit_at};
ghost use Rattle.m4_slice.specs.Gathered.{IsGathered, IsSpread};

// Runs of ones: so many of each so many bits, from the lowest on.
const ONE_OF_2: u64 = 0x5555_5555_5555_5555;

const TWO_OF_4: u64 = 0x3333_3333_3333_3333;

const FOUR_OF_8: u64 = 0x0F0F_0F0F_0F0F_0F0F;

const EIGHT_OF_16: u64 = 0x00FF_00FF_00FF_00FF;

const SIXTEEN_OF_32: u64 = 0x0000_FFFF_0000_FFFF;

const ONE_OF_4: u64 = 0x1111_1111_1111_1111;

const TWO_OF_8: u64 = 0x0303_0303_0303_0303;

const FOUR_OF_16: u64 = 0x000F_000F_000F_000F;

const EIGHT_OF_32: u64 = 0x0000_00FF_0000_00FF;

const ONE_OF_8: u64 = 0x0101_0101_0101_0101;

const TWO_OF_16: u64 = 0x0003_0003_0003_0003;

const FOUR_OF_32: u64 = 0x0000_000F_0000_000F;

const ONE_OF_16: u64 = 0x0001_0001_0001_0001;

const TWO_OF_32: u64 = 0x0000_0003_0000_0003;

const FIRST_32: u64 = 0xFFFF_FFFF;

const FIRST_16: u64 = 0xFFFF;

const FIRST_8: u64 = 0xFF;

const FIRST_4: u64 = 0xF;

/// The bits of the word at the multiples of `width`, side by side from the lowest place on.
#[inline]
pub fn gather(word: u64, width: u32) -> u64
    requires { IsTrue (width == 1 || width == 2 || width == 4 || width == 8 || width == 16) }
    ensures { IsGathered width word result }
{
    if width == 1 {
        word
    } else if width == 2 {
        gather_2(word)
    } else if width == 4 {
        gather_4(word)
    } else if width == 8 {
        gather_8(word)
    } else {
        gather_16(word)
    }
}

/// The lowest bits of the word, as many as there are multiples of `width` below 64, at these multiples.
#[inline]
pub fn spread(word: u64, width: u32) -> u64
    requires { IsTrue (width == 1 || width == 2 || width == 4 || width == 8 || width == 16) }
    ensures { IsSpread width word result }
{
    if width == 1 {
        word
    } else if width == 2 {
        spread_2(word)
    } else if width == 4 {
        spread_4(word)
    } else if width == 8 {
        spread_8(word)
    } else {
        spread_16(word)
    }
}

/// The bits at even places.
#[inline(always)]
fn gather_2(word: u64) -> u64
    ensures { IsGathered 2 word result }
{
    let ones = word & ONE_OF_2;
    let twos = close_up(ones, 1, TWO_OF_4);
    let fours = close_up(twos, 2, FOUR_OF_8);
    let eights = close_up(fours, 4, EIGHT_OF_16);
    let sixteens = close_up(eights, 8, SIXTEEN_OF_32);
    close_up(sixteens, 16, FIRST_32)
}

/// Every fourth bit.
#[inline(always)]
fn gather_4(word: u64) -> u64
    ensures { IsGathered 4 word result }
{
    let ones = word & ONE_OF_4;
    let twos = close_up(ones, 3, TWO_OF_8);
    let fours = close_up(twos, 6, FOUR_OF_16);
    let eights = close_up(fours, 12, EIGHT_OF_32);
    close_up(eights, 24, FIRST_16)
}

/// Every eighth bit.
#[inline(always)]
fn gather_8(word: u64) -> u64
    ensures { IsGathered 8 word result }
{
    let ones = word & ONE_OF_8;
    let twos = close_up(ones, 7, TWO_OF_16);
    let fours = close_up(twos, 14, FOUR_OF_32);
    close_up(fours, 28, FIRST_8)
}

/// Every sixteenth bit.
#[inline(always)]
fn gather_16(word: u64) -> u64
    ensures { IsGathered 16 word result }
{
    let ones = word & ONE_OF_16;
    let twos = close_up(ones, 15, TWO_OF_32);
    close_up(twos, 30, FIRST_4)
}

/// The word's bits, and those that lie so far above them, where the mask has ones.
#[inline(always)]
fn close_up(word: u64, far: u32, mask: u64) -> u64
    requires { far < 64 }
    ensures { (j : ℕ) → bit_at result j ≡ min (max (bit_at word j) (bit_at word (far + j))) (bit_at mask j) }
{
    (word | word >> far) & mask
}

/// The lowest 32 bits at even places.
#[inline(always)]
fn spread_2(word: u64) -> u64
    ensures { IsSpread 2 word result }
{
    let first = word & FIRST_32;
    let sixteens = draw_apart(first, 16, SIXTEEN_OF_32);
    let eights = draw_apart(sixteens, 8, EIGHT_OF_16);
    let fours = draw_apart(eights, 4, FOUR_OF_8);
    let twos = draw_apart(fours, 2, TWO_OF_4);
    draw_apart(twos, 1, ONE_OF_2)
}

/// The lowest 16 bits at every fourth place.
#[inline(always)]
fn spread_4(word: u64) -> u64
    ensures { IsSpread 4 word result }
{
    let first = word & FIRST_16;
    let eights = draw_apart(first, 24, EIGHT_OF_32);
    let fours = draw_apart(eights, 12, FOUR_OF_16);
    let twos = draw_apart(fours, 6, TWO_OF_8);
    draw_apart(twos, 3, ONE_OF_4)
}

/// The lowest 8 bits at every eighth place.
#[inline(always)]
fn spread_8(word: u64) -> u64
    ensures { IsSpread 8 word result }
{
    let first = word & FIRST_8;
    let fours = draw_apart(first, 28, FOUR_OF_32);
    let twos = draw_apart(fours, 14, TWO_OF_16);
    draw_apart(twos, 7, ONE_OF_8)
}

/// The lowest 4 bits at every sixteenth place.
#[inline(always)]
fn spread_16(word: u64) -> u64
    ensures { IsSpread 16 word result }
{
    let first = word & FIRST_4;
    let twos = draw_apart(first, 30, TWO_OF_32);
    draw_apart(twos, 15, ONE_OF_16)
}

/// The word's bits, and those that lie so far below them, where the mask has ones.
#[inline(always)]
fn draw_apart(word: u64, far: u32, mask: u64) -> u64
    requires { far < 64 }
    ensures { (j : ℕ) → bit_at result j ≡ min (max (bit_at word j) (bit_at (word * 2 ^ far % 2 ^ 64) j)) (bit_at mask j) }
{
    (word | word << far) & mask
}
