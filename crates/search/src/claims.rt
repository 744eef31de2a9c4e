// Sums of lengths, held at a claim.
ghost use Rattle.std.specs.Prelude.{◌≡◌, ◌≤◌, IfSome};
ghost use Rattle.std.specs.Option.{option_map};
ghost use Rattle.search.specs.Sums.{plus, capped, is_below};

use motion::Length;

// The sum and one length more, none where either is, and never above the claim.
pub fn add(sum: Option<u32>, more: Option<Length>, claim: u16) -> Option<u32>
    requires { IfSome sum (λ s. s ≤ claim) }
    ensures { result ≡ capped claim (plus sum (option_map (λ n. n.0.0) more)) }
{
    let s = sum?;
    let n = more?;
    Some((s + u32::from(n.0.0)).min(u32::from(claim)))
}

pub fn is_below(sum: Option<u32>, claim: u16) -> bool
    ensures { result ≡ is_below claim sum }
{
    sum.is_some_and(|s| s < u32::from(claim))
}
