ghost use Rattle.std.specs.Prelude.{◌≡◌, ◌<◌, ◌≤◌};
ghost use Rattle.ruling.specs.Checks.{Answers};
ghost use Rattle.ruling.specs.KindLists.{opening_fault};
ghost use Rattle.ruling.specs.Listed.{list_of};
ghost use Rattle.samples.specs.Samples.{within, ruled_sample};

use super::opening::Opening;
use super::rules::Rules;
use super::sample::Sample;
use ruling::{Kinds, Refusal, Ruling, check_opening, fits_rank};

// The kind list of these ranks: 1, 2, 3.
pub fn open(ranks: &[u8]) -> Result<Opening, Refusal>
    ensures { Answers (opening_fault ranks.now) (λ o. list_of o.kinds ≡ ranks.now) result }
{
    check_opening(ranks)?;
    let kinds = Kinds::make(ranks);
    Ok(Opening { kinds })
}

// A target as a state: 0 where it is none.
fn state_within(states: u16, target: u32) -> u16
    ensures { result ≡ within states target }
{
    (target < u32::from(states))
        .then(|| target as u16)
        .unwrap_or(0)
}

impl<T: Rules> Sample<T> {
    pub fn make(opening: Opening, states: u16, rules: T) -> Sample<T>
        requires { (0 < states) × (states ≤ 1089) }
        ensures { (result.opening ≡ opening) × ((result.states ≡ states) × (result.rules ≡ rules)) }
    {
        Sample {
            opening,
            states,
            rules,
        }
    }
}

impl<T: Rules> Ruling for Sample<T> {
    ghost meaning = { λ s. ruled_sample s.opening.kinds s.opening.list s.states s.some s.few (T.Rules.leads s.rules s.states) (T.Rules.marks s.rules s.states) };

    fn states(&self) -> u16 {
        self.states
    }

    fn rank(&self, kind: u8) -> Option<u8> {
        self.opening.kinds.rank(kind)
    }

    fn target(&self, kind: u8, a: u16, b: u16) -> Option<u16> {
        let rank = self.opening.kinds.rank(kind)?;
        fits_rank(rank, self.states, a, b).then(|| state_within(
            self.states,
            self.rules.lead(self.states, kind, a, b),
        ))
    }

    fn mark(&self, state: u16) -> Option<bool> {
        (state < self.states).then(|| self.rules.mark(self.states, state))
    }
}
