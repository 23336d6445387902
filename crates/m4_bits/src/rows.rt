//! Whole rows of words: several rows added to one in one pass, a row added from a column on, and rows copied, exchanged
//! and cleared. Each call leaves the bits of the last word outside its mask as they were.
ghost use Rattle.std.specs.Prelude.{◌≡◌, ℕ, ◌<◌, ◌≤◌, [], ◌∷◌, length, replicate};
ghost use Rattle.m4_model.specs.Matrix.{row_sum};
ghost use Rattle.m4_bits.specs.Bits.{bit, masked, merged, overlaid, rows_added};

use super::merge;
use std::simd::prelude::*;

// Adds rows to `dst`, in one pass, eight words at a time, and the rest one by one. Of the last word of each only the bits of
// `last` are added.
macro_rules! add_rows {
    ($dst:ident, $last:ident, $($src:ident),+) => {
        if $dst.is_empty() {
            return;
        }
        let end = $dst.len() - 1;
        let before = $dst[end];
        let blocks = $dst.len() / 8;
        for block in 0..blocks {
            let at = block * 8;
            let sum = u64x8::from_slice(&$dst[at..]) $(^ u64x8::from_slice(&$src[at..]))+;
            sum.copy_to_slice(&mut $dst[at..]);
        }
        for k in blocks * 8..end {
            $dst[k] = $dst[k] $(^ $src[k])+;
        }
        $dst[end] = before $(^ ($src[end] & $last))+;
    };
}

/// Adds the row `src` to the row `dst` of as many words, in one pass. Of the last word of `src` only the bits of `last`
/// are added, so that with `last = mask(cols)` the bits past the last column stay as they were.
pub fn xor_into(dst: &mut [u64], src: &[u64], last: u64)
    requires { length dst.old ≡ length src.now }
    ensures { dst.new ≡ row_sum dst.old (masked src.now last) }
{
    add_rows!(dst, last, src);
}

/// Adds two rows to the row `dst` of as many words, in one pass. Of their last words only the bits of `last` are added.
pub fn xor_from2(dst: &mut [u64], a: &[u64], b: &[u64], last: u64)
    requires { (length a.now ≡ length dst.old) × (length b.now ≡ length dst.old) }
    ensures { dst.new ≡ rows_added dst.old (a.now ∷ b.now ∷ []) last }
{
    add_rows!(dst, last, a, b);
}

/// Adds three rows to the row `dst` of as many words, in one pass. Of their last words only the bits of `last` are added.
pub fn xor_from3(dst: &mut [u64], a: &[u64], b: &[u64], c: &[u64], last: u64)
    requires { (length a.now ≡ length dst.old) × (length b.now ≡ length dst.old) × (length c.now ≡ length dst.old) }
    ensures { dst.new ≡ rows_added dst.old (a.now ∷ b.now ∷ c.now ∷ []) last }
{
    add_rows!(dst, last, a, b, c);
}

/// Adds four rows to the row `dst` of as many words, in one pass. Of their last words only the bits of `last` are added.
pub fn xor_from4(dst: &mut [u64], a: &[u64], b: &[u64], c: &[u64], d: &[u64], last: u64)
    requires { (length a.now ≡ length dst.old) × (length b.now ≡ length dst.old) × (length c.now ≡ length dst.old) × (length d.now ≡ length dst.old) }
    ensures { dst.new ≡ rows_added dst.old (a.now ∷ b.now ∷ c.now ∷ d.now ∷ []) last }
{
    add_rows!(dst, last, a, b, c, d);
}

/// Adds five rows to the row `dst` of as many words, in one pass. Of their last words only the bits of `last` are added.
pub fn xor_from5(dst: &mut [u64], a: &[u64], b: &[u64], c: &[u64], d: &[u64], e: &[u64], last: u64)
    requires { (length a.now ≡ length dst.old) × (length b.now ≡ length dst.old) × (length c.now ≡ length dst.old) × (length d.now ≡ length dst.old) × (length e.now ≡ length dst.old) }
    ensures { dst.new ≡ rows_added dst.old (a.now ∷ b.now ∷ c.now ∷ d.now ∷ e.now ∷ []) last }
{
    add_rows!(dst, last, a, b, c, d, e);
}

/// Adds six rows to the row `dst` of as many words, in one pass. Of their last words only the bits of `last` are added.
pub fn xor_from6(
    dst: &mut [u64],
    a: &[u64],
    b: &[u64],
    c: &[u64],
    d: &[u64],
    e: &[u64],
    f: &[u64],
    last: u64,
)
    requires { (length a.now ≡ length dst.old) × (length b.now ≡ length dst.old) × (length c.now ≡ length dst.old) × (length d.now ≡ length dst.old) × (length e.now ≡ length dst.old) × (length f.now ≡ length dst.old) }
    ensures { dst.new ≡ rows_added dst.old (a.now ∷ b.now ∷ c.now ∷ d.now ∷ e.now ∷ f.now ∷ []) last }
{
    add_rows!(dst, last, a, b, c, d, e, f);
}

/// Adds seven rows to the row `dst` of as many words, in one pass. Of their last words only the bits of `last` are added.
pub fn xor_from7(
    dst: &mut [u64],
    a: &[u64],
    b: &[u64],
    c: &[u64],
    d: &[u64],
    e: &[u64],
    f: &[u64],
    g: &[u64],
    last: u64,
)
    requires { (length a.now ≡ length dst.old) × (length b.now ≡ length dst.old) × (length c.now ≡ length dst.old) × (length d.now ≡ length dst.old) × (length e.now ≡ length dst.old) × (length f.now ≡ length dst.old) × (length g.now ≡ length dst.old) }
    ensures { dst.new ≡ rows_added dst.old (a.now ∷ b.now ∷ c.now ∷ d.now ∷ e.now ∷ f.now ∷ g.now ∷ []) last }
{
    add_rows!(dst, last, a, b, c, d, e, f, g);
}

/// Adds eight rows to the row `dst` of as many words, in one pass. Of their last words only the bits of `last` are added.
pub fn xor_from8(
    dst: &mut [u64],
    a: &[u64],
    b: &[u64],
    c: &[u64],
    d: &[u64],
    e: &[u64],
    f: &[u64],
    g: &[u64],
    h: &[u64],
    last: u64,
)
    requires { (length a.now ≡ length dst.old) × (length b.now ≡ length dst.old) × (length c.now ≡ length dst.old) × (length d.now ≡ length dst.old) × (length e.now ≡ length dst.old) × (length f.now ≡ length dst.old) × (length g.now ≡ length dst.old) × (length h.now ≡ length dst.old) }
    ensures { dst.new ≡ rows_added dst.old (a.now ∷ b.now ∷ c.now ∷ d.now ∷ e.now ∷ f.now ∷ g.now ∷ h.now ∷ []) last }
{
    add_rows!(dst, last, a, b, c, d, e, f, g, h);
}

/// Makes of the row `dst` the sum of two rows of as many words, in one pass. Of its last word only the bits of `last` are
/// written.
pub fn set_sum(dst: &mut [u64], a: &[u64], b: &[u64], last: u64)
    requires { (length a.now ≡ length dst.old) × (length b.now ≡ length dst.old) }
    ensures { dst.new ≡ overlaid dst.old (row_sum a.now b.now) last }
{
    if dst.is_empty() {
        return;
    }
    let end = dst.len() - 1;
    let before = dst[end];
    let blocks = dst.len() / 8;
    for block in 0..blocks {
        let at = block * 8;
        let sum = u64x8::from_slice(&a[at..]) ^ u64x8::from_slice(&b[at..]);
        sum.copy_to_slice(&mut dst[at..]);
    }
    for k in blocks * 8..end {
        dst[k] = a[k] ^ b[k];
    }
    dst[end] = merge(before, a[end] ^ b[end], last);
}

/// Adds the row `src` to the row `dst` of as many words, from column `first` on. Of the last word only the bits of
/// `last` are added. Every bit before `first` stays, and where the rows end before `first`, every bit does.
pub fn xor_from_column(dst: &mut [u64], src: &[u64], first: u32, last: u64)
    requires { length dst.old ≡ length src.now }
    ensures added { (k : ℕ) → first ≤ k → bit dst.new k ≡ bit (row_sum dst.old (masked src.now last)) k }
    ensures kept { (k : ℕ) → k < first → bit dst.new k ≡ bit dst.old k }
{
    let place = (first / 64) as usize;
    if place >= dst.len() {
        return;
    }
    let before = dst[place];
    xor_into(&mut dst[place..], &src[place..], last);
    dst[place] = merge(before, dst[place], u64::MAX << (first % 64));
}

/// Copies the row `src` over the row `dst` of as many words. Of the last word only the bits of `last` are copied.
pub fn copy_into(dst: &mut [u64], src: &[u64], last: u64)
    requires { length dst.old ≡ length src.now }
    ensures { dst.new ≡ overlaid dst.old src.now last }
{
    if dst.is_empty() {
        return;
    }
    let end = dst.len() - 1;
    let before = dst[end];
    dst.copy_from_slice(src);
    dst[end] = merge(before, src[end], last);
}

/// Exchanges two rows of as many words. Of their last words only the bits of `last` are exchanged.
pub fn swap_into(a: &mut [u64], b: &mut [u64], last: u64)
    requires { length a.old ≡ length b.old }
    ensures first { a.new ≡ overlaid a.old b.old last }
    ensures second { b.new ≡ overlaid b.old a.old last }
{
    if a.is_empty() {
        return;
    }
    let end = a.len() - 1;
    let first = a[end];
    let second = b[end];
    a.swap_with_slice(b);
    a[end] = merge(first, second, last);
    b[end] = merge(second, first, last);
}

/// Makes every bit of the row 0. Of the last word only the bits of `last` are cleared.
pub fn clear(dst: &mut [u64], last: u64)
    ensures { dst.new ≡ overlaid dst.old (replicate (length dst.old) 0) last }
{
    if dst.is_empty() {
        return;
    }
    let end = dst.len() - 1;
    let before = dst[end];
    dst.fill(0);
    dst[end] = merge(before, 0, last);
}
