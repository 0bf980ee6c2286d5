//! Which findings are accepted.

ghost use Rattle.std.specs.Prelude.{◌↔◌, IsTrue};
ghost use Rattle.mine_workers.specs.Accepting.{IsAcceptedFinding};

use evidence::Finding;
use judge::Answer;

/// Whether a proposal was accepted.
pub fn is_accepted(finding: &Finding) -> bool
    ensures { IsTrue result ↔ IsAcceptedFinding finding.now }
{
    match finding {
        Finding::Judged {
            proposal: _,
            answer: Answer::Accepted { checked: _ },
        } => true,
        _ => false,
    }
}
