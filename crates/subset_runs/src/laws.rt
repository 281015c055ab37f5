//! The laws of subsets that the crates above stand on, over lists of flags alone. Each function does nothing: its clauses are
//! the laws, and its proof proves them.
ghost use Rattle.std.specs.Prelude.{◌≡◌, ℕ, ◌+◌, ◌<◌, ◌↔◌, Bool, List, length, IsTrue, Contains, slice_index};
ghost use Rattle.std.specs.List.Sorted.{IsStrictlyIncreasing};
ghost use Rattle.subset_runs.specs.Subset.{complement, contains, count, expand, expand_as, expand_in, members, minus, shrink, symmetric_difference, union};
ghost use Rattle.subset_runs.specs.Renumbering.{Renumbers};

/// Flags are no more than their length and their members, which rise and are positions below the length.
pub fn members_and_length()
    ensures same { (xs ys : List Bool) → length xs ≡ length ys → members xs ≡ members ys → xs ≡ ys }
    ensures rise { (xs : List Bool) → IsStrictlyIncreasing (members xs) }
    ensures within { (xs : List Bool) (k : ℕ) → k < length (members xs)
        → slice_index (members xs) k < length xs }
    ensures member { (xs : List Bool) (i : ℕ) → IsTrue (contains xs i) ↔ Contains (members xs) i }
    ensures counted { (xs : List Bool) → length (members xs) ≡ count xs }
{}

/// The positions of the text without `by` are those of the text outside `by`, one for one and in order, and `expand` takes each
/// member where its position goes.
pub fn renumbering()
    ensures found { (by : List Bool) (i : ℕ) → i + count by < length by → (p : ℕ) × Renumbers by i p }
    ensures within { (by : List Bool) (i p : ℕ) → Renumbers by i p → i + count by < length by }
    ensures rises { (by : List Bool) (i j p q : ℕ) → Renumbers by i p → Renumbers by j q
        → p < q → i < j }
    ensures members { (xs by : List Bool) (k : ℕ) → length xs + count by ≡ length by → k < count xs
        → Renumbers by (slice_index (members xs) k) (slice_index (members (expand xs by)) k) }
{}

/// How many members the transforms leave.
pub fn counts()
    ensures union { (xs ys : List Bool) → length xs ≡ length ys
        → count (union xs ys) ≡ count xs + count (minus ys xs) }
    ensures complement { (xs : List Bool) → count (complement xs) + count xs ≡ length xs }
    ensures expand { (xs by : List Bool) → length xs + count by ≡ length by
        → count (expand xs by) ≡ count xs }
    ensures expand_in { (xs by : List Bool) → length xs + count by ≡ length by
        → count (expand_in xs by) ≡ count xs + count by }
    ensures shrink { (xs by : List Bool) → length xs ≡ length by
        → count (shrink xs by) ≡ count (minus xs by) }
{}

/// What `shrink` and `expand` give back of each other.
pub fn shrink_and_expand()
    ensures shrink_expand { (inside : Bool) (xs by : List Bool) → length xs + count by ≡ length by
        → shrink (expand_as inside xs by) by ≡ xs }
    ensures expand_shrink { (xs by : List Bool) → length xs ≡ length by
        → expand (shrink xs by) by ≡ minus xs by }
    ensures expand_in_shrink { (xs by : List Bool) → length xs ≡ length by
        → expand_in (shrink xs by) by ≡ union xs by }
    ensures expand_in_union { (xs by : List Bool) → length xs + count by ≡ length by
        → expand_in xs by ≡ union (expand xs by) by }
{}

/// What comes or goes in two steps comes or goes in one.
pub fn two_steps()
    ensures expand_expand { (inside : Bool) (xs by more : List Bool) → length by + count more ≡ length more
        → expand_as inside (expand_as inside xs by) more ≡ expand_as inside xs (expand_in by more) }
    ensures shrink_shrink { (xs by more : List Bool) → length by + count more ≡ length more
        → length xs ≡ length more
        → shrink (shrink xs more) by ≡ shrink xs (expand_in by more) }
{}

/// `complement` and `minus` as in the algebra of sets.
pub fn complements()
    ensures twice { (xs : List Bool) → complement (complement xs) ≡ xs }
    ensures minus { (xs ys : List Bool) → minus xs ys ≡ complement (union (complement xs) ys) }
    ensures expand { (xs by : List Bool) → length xs + count by ≡ length by
        → complement (expand xs by) ≡ expand_in (complement xs) by }
{}

/// What is in exactly one of two subsets: it takes each of the two to the other, and it is what one of them has alone.
pub fn symmetric_differences()
    ensures back { (xs ys : List Bool) → length xs ≡ length ys
        → symmetric_difference xs (symmetric_difference xs ys) ≡ ys }
    ensures either { (xs ys : List Bool) → symmetric_difference xs ys ≡ symmetric_difference ys xs }
    ensures alone { (xs ys : List Bool) → symmetric_difference xs ys
        ≡ union (minus xs ys) (minus ys xs) }
    ensures none { (xs : List Bool) → count (symmetric_difference xs xs) ≡ 0 }
{}

/// `expand` and `shrink` go through `union` and `minus`.
pub fn unions()
    ensures expand_union { (inside : Bool) (xs ys by : List Bool) → length xs ≡ length ys
        → expand_as inside (union xs ys) by ≡ union (expand_as inside xs by) (expand_as inside ys by) }
    ensures expand_minus { (xs ys by : List Bool) → length xs ≡ length ys
        → expand (minus xs ys) by ≡ minus (expand xs by) (expand ys by) }
    ensures shrink_union { (xs ys by : List Bool) → shrink (union xs ys) by ≡ union (shrink xs by) (shrink ys by) }
    ensures shrink_minus { (xs ys by : List Bool) → shrink (minus xs ys) by ≡ minus (shrink xs by) (shrink ys by) }
{}
