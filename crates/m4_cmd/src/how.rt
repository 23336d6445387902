//! How a job is computed.

ghost use Rattle.std.specs.Prelude.{◌≡◌};
ghost use Rattle.std.specs.Option.{ForSome};
ghost use Rattle.m4_words.specs.Small.{IsCutoff, IsSmall};

use m4_dense::How;
use m4_outcome::Choices;

/// How the options choose that a job is computed. What they leave open is left open.
pub(crate) fn how_of(choices: &Choices) -> How
    requires small_k { ForSome choices.now.k IsSmall }
    requires few_tables { ForSome choices.now.tables IsSmall }
    requires within { ForSome choices.now.cutoff IsCutoff }
    ensures algo { result.algo ≡ choices.now.algo }
    ensures k { result.k ≡ choices.now.k }
    ensures tables { result.tables ≡ choices.now.tables }
    ensures cutoff { result.cutoff ≡ choices.now.cutoff }
{
    How {
        algo: choices.algo,
        k: choices.k,
        tables: choices.tables,
        cutoff: choices.cutoff,
    }
}
