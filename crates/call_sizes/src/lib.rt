// Size before the run: the published call.
#![tactic(auto)]

ghost use Rattle.std.specs.Prelude.{◌≡◌};
ghost use Rattle.refusals.specs.Outcomes.{outcome as outcome_said, showing};
ghost use Rattle.formula_run.specs.Outcome.{tally_of};
ghost use Rattle.call_sizes.specs.Outcome.{outcome as outcome_defined};

use formula_run::Tally;
use refusals::Refusal;
use run::Settings;

// Works out what reencoding a formula gives: choices, H, M, log lines and both byte lengths. Neither text is written, and no buffer for them is lent.
pub fn sizes(text: &[u8], settings: Settings, work: &mut [i32]) -> Result<Tally, Refusal>
    ensures outcome { outcome_said result ≡ showing tally_of (outcome_defined settings text.now work.old) }
{
    let mut log = [0u8; 0];
    let mut formula = [0u8; 0];
    let mut rows = [records::NO_RECORD; run::MOST_CHOICES];
    formula_run::run_formula(text, settings, work, &mut log, &mut formula, &mut rows)
}
