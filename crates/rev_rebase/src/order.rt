ghost use Rattle.std.specs.Prelude.{◌≡◌, not};
ghost use Rattle.plain_edits.specs.Rank.{is_lower};

use plain_edits::Rank;

// THE RULE OF ORDER: whether an insertion goes right of those of an earlier revision, whose rank is `earlier`. Of equal ranks the
// later edit goes right.
pub(crate) fn goes_right(earlier: Rank, rank: Rank) -> bool
    ensures { result ≡ not (is_lower rank earlier) }
{
    !rank.is_lower(earlier)
}
