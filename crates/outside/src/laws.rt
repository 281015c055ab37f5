//! The laws of a shelf's files, which make them a map from paths to bytes. Each function does nothing: its clause is the law, and its
//! proof proves it.

ghost use Rattle.outside.specs.ShelfLaws.{SetPathsHaveTheirBytes, OtherPathsStay};

/// A path that was set has those bytes.
pub fn set_paths_have_their_bytes()
    ensures { SetPathsHaveTheirBytes }
{}

/// Every other path has what it had.
pub fn other_paths_stay()
    ensures { OtherPathsStay }
{}
