//! Whether a product is cut, and where.

ghost use Rattle.std.specs.Prelude.{◌≡◌, ◌+◌, ◌*◌, ◌^◌, ◌<◌, ◌≤◌, IsTrue};
ghost use Rattle.m4_model.specs.Recursion.{is_cut, half, need, products};
ghost use Rattle.m4_strassen.specs.Cuts.{IsCut, IsWithin, words_for_cut};

/// A product that is cut: its quarters are an m x l and an l x n matrix, and their products are cut by the same cutoff.
#[derive(Clone, Copy)]
pub(crate) struct Cut {
    pub(crate) m: u32,
    pub(crate) l: u32,
    pub(crate) n: u32,
    pub(crate) cutoff: u32,
}

/// Whether the product of an m x l and an l x n matrix is cut: no side is below twice the cutoff.
pub(crate) fn is_cut(m: u32, l: u32, n: u32, cutoff: u32) -> bool
    requires some { 0 < cutoff }
    requires few { cutoff ≤ 2 ^ 16 }
    ensures { result ≡ is_cut m l n cutoff }
{
    let least = 2 * cutoff;
    cutoff > 0 && (least <= m && (least <= l && least <= n))
}

/// Where a product is cut.
pub(crate) fn cut_of(m: u32, l: u32, n: u32, cutoff: u32) -> Cut
    requires least { 64 ≤ cutoff }
    requires few { cutoff ≤ 2 ^ 16 }
    requires cut { IsTrue (is_cut m l n cutoff) }
    ensures cut { IsCut result }
    ensures within { IsWithin result m l n }
    ensures words { words_for_cut result ≡ need m l n cutoff }
    ensures products { 7 * products result.m result.l result.n result.cutoff + 3 ≡ products m l n cutoff }
{
    Cut {
        m: half(m),
        l: half(l),
        n: half(n),
        cutoff,
    }
}

/// Half of a side, rounded down to a multiple of 64.
pub(crate) fn half(side: u32) -> u32
    ensures { result ≡ half side }
{
    64 * (side / 128)
}
