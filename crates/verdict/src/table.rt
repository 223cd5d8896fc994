// A table of rules, line by line: whether the line applies, and its verdict.
ghost use Rattle.std.specs.Prelude.{◌≡◌};
ghost use Rattle.laws.specs.Lists.{first_line};

use crate::verdicts::Verdict;

// The verdict of the first line that applies; `otherwise` where none does.
pub(crate) fn first_line(lines: &[(bool, Verdict)], otherwise: Verdict) -> Verdict
    ensures { result ≡ first_line lines.now otherwise }
{
    for &(applies, verdict) in lines {
        if applies {
            return verdict;
        }
    }
    otherwise
}
