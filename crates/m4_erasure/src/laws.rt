ghost use Rattle.std.specs.Prelude.{◌≡◌, ℕ, List};
ghost use Rattle.m4_model.specs.Forms.{Singular};
ghost use Rattle.m4_erasure.specs.Shards.{AreDiffering, powers_of};
ghost use Rattle.m4_erasure.specs.Restored.{AreShards, GivesBack, IsSourceOf, Restores};
ghost use Rattle.m4_erasure.specs.declared.shard.Shard.{Shard};
ghost use Rattle.m4_erasure.specs.declared.shard.Restored.{Restored};

/// The matrix of the powers of differing points isn't singular: a polynomial of degree below k that isn't zero has fewer
/// than k roots (Vandermonde).
pub fn law_points()
    ensures { (points : List ℕ) → AreDiffering points → Singular (powers_of points) → ⊥ }
{}

/// `k` shards with differing points have one source only, so that what is restored from shards of a source is this source:
/// the difference of two sources has stripes whose polynomials are zero at `k` points.
pub fn law_restored()
    ensures one_source { (shards : List Shard) (a b : List ℕ) → AreShards shards → IsSourceOf shards a → IsSourceOf shards b → a ≡ b }
    ensures given_back { (shards : List Shard) (src : List ℕ) (restored : Restored) → AreShards shards → IsSourceOf shards src → Restores shards restored → GivesBack src restored }
{}
