ghost use Rattle.std.specs.Prelude.{◌≡◌, ◌↔◌, ℕ, Some, IsTrue};
ghost use Rattle.nat_solver.specs.Pattern.{Fits, Exclude, least};

/// A number parameter of a type, as one of its constructors names it.
#[derive(Clone, Copy, Debug, PartialEq, Eq)]
pub enum Pattern {
    Lit(u32),
    /// A variable, by its number.
    Var(u32),
    /// A variable, by its number, and a literal that is added to it.
    Plus(u32, u32),
}

/// The number of the pattern's variable where the pattern meets `x`; a literal gives `x` itself.
pub fn pattern_fit(p: &Pattern, x: u32) -> Option<u32>
    ensures { (y : ℕ) → (result ≡ Some y) ↔ Fits p.now x y }
{
    match p {
        Pattern::Lit(n) => { if x == *n { Some(x) } else { None } }
        Pattern::Var(_) => Some(x),
        Pattern::Plus(_, k) => x.checked_sub(*k),
    }
}

/// Whether no number meets both patterns.
pub fn patterns_exclude(p: &Pattern, q: &Pattern) -> bool
    ensures { IsTrue result ↔ Exclude p.now q.now }
{
    // A pattern meets one number, or all from its least one on: what meets both is met by the
    // larger of the two least numbers too.
    let shared = least_number(p).max(least_number(q));
    let left = pattern_fit(p, shared);
    let right = pattern_fit(q, shared);
    left.is_none() || right.is_none()
}

/// The least number that meets the pattern.
fn least_number(p: &Pattern) -> u32
    ensures { result ≡ least p.now }
{
    match p {
        Pattern::Lit(n) => *n,
        Pattern::Var(_) => 0,
        Pattern::Plus(_, k) => *k,
    }
}
