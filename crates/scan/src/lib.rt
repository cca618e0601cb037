// The lowest place that fails a test: what every check of a file looks for.
#![tactic(auto)]

ghost use Rattle.std.specs.Prelude.{◌≡◌};
ghost use Rattle.scan.specs.ForProofs.{lower_of};

// The lower of two places.
pub fn lower(a: Option<usize>, b: Option<usize>) -> Option<usize>
    ensures { result ≡ lower_of a b }
{
    match a {
        Some(i) => match b {
            Some(j) => if i <= j { Some(i) } else { Some(j) },
            None => Some(i),
        },
        None => b,
    }
}
