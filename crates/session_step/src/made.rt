ghost use Rattle.std.specs.Prelude.{◌≡◌, Err, IfErr, IfOk, Ok};

/// Both parts, where the second one was made; else the first is let go. It knows nothing of what it holds, so to let that go is one step
/// of its proof.
pub fn both<A: Drop, B, E>(first: A, second: Result<B, E>) -> Result<(A, B), E>
    ensures made { IfOk result (λ made. (made.0 ≡ first) × (second ≡ Ok made.1)) }
    ensures failed { IfErr result (λ error. second ≡ Err error) }
{
    match second {
        Ok(second) => Ok((first, second)),
        Err(error) => Err(error),
    }
}
