ghost use Rattle.std.specs.Prelude.{◌≡◌, ◌+◌, ◌^◌, ◌<◌, cond, length};
ghost use Rattle.std.specs.Str.{chars};
ghost use Rattle.line_break.specs.Breaks.{is_space_or_tab};
ghost use Rattle.line_break.specs.Inner.{IsTail};

/// What the last characters of a cluster mean to a piece that ends there. Lengths are in characters.
#[derive(Clone, Copy)]
pub(crate) struct Tail {
    pub len: u64,
    /// The length without trailing spaces and tabs.
    pub solid: u64,
    /// What would be shown if an LF came next: the length without a CR at the end, and then without trailing spaces and tabs.
    pub ended: u64,
    /// The length without the line end, and then without trailing spaces and tabs.
    pub shown: u64,
    /// A line may be broken after the last character.
    pub breaks: bool,
}

impl Tail {
    ghost use Rattle.std.specs.Prelude.{ℕ, List, ◌∷◌, [], ◌++◌};

    /// The tail with one character more.
    fn then(self, c: char) -> Tail
        requires { self.len + 1 < 2 ^ 64 }
        ensures { (text : List ℕ) → IsTail text self → IsTail (text ++ c ∷ []) result }
    {
        let len = self.len + 1;
        let blank = is_space_or_tab(c);
        let solid = stays(blank, self.solid, len);
        Tail {
            len,
            solid,
            ended: stays(blank || c == '\r', self.solid, len),
            shown: stays(c == '\n', self.ended, solid),
            breaks: blank || c == '-',
        }
    }
}

/// The tail of a cluster, in the time of the cluster.
pub(crate) fn tail_of(cluster: &str) -> Tail
    ensures { IsTail (chars cluster.now) result }
{
    let mut tail = Tail {
        len: 0,
        solid: 0,
        ended: 0,
        shown: 0,
        breaks: false,
    };
    for c in cluster.chars() {
        tail = tail.then(c);
    }
    tail
}

fn is_space_or_tab(c: char) -> bool
    ensures { result ≡ is_space_or_tab c }
{
    c == ' ' || c == '\t'
}

fn stays(stays: bool, old: u64, new: u64) -> u64
    ensures { result ≡ cond stays old new }
{
    if stays { old } else { new }
}
