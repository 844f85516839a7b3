// A rule of which coefficients are still wanted, and the lines that give them.
ghost use Rattle.std.specs.Prelude.{◌≡◌, true};
ghost use Rattle.trees.specs.Settings.{coefficient_fits};
ghost use Rattle.listing.specs.Drafts.{drafted};
ghost use Rattle.listing.specs.Machine.{Barring, Lacking, ended, finished, pair_answer, pair_field, pair_kept, with_pair};

use crate::fault::Fault;
use crate::state::{Reply, State};
use crate::wish::Kind;
use lines::fault::LineFault;
use lines::field::Fields;
use paths::path::PathRule;
use paths::rule::Rule;
use trees::fault::RuleFault;
use trees::settings::{Coefficient, Settings};

// The kind of its keys, its settings, and the coefficients so far, a level each.
#[derive(Drop)]
pub struct Draft {
    pub kind: Kind,
    pub settings: Settings,
    pub coefficients: Vec<Coefficient>,
}

// The coefficients in the fields after `coef`.
fn read_pair(fields: &mut Fields) -> Result<Coefficient, LineFault>
    ensures { result ≡ pair_field fields.old }
{
    let a = fields.value()?;
    let b = fields.last_value()?;
    Ok(Coefficient { a, b })
}

impl Draft {
    // A rule with all its coefficients, ready for keys.
    pub(crate) fn complete(&self) -> Result<(State, Reply), Fault>
        ensures { ended result ≡ finished (drafted self.now) }
    {
        let rule = Rule::new(self.settings, &self.coefficients)?;
        let total = rule.total();
        Ok((
            State::Ready {
                kind: self.kind,
                rule,
            },
            Reply::Total { total },
        ))
    }

    // The coefficients of one level more.
    fn collect(mut self, pair: Coefficient) -> Result<(State, Reply), Fault>
        ensures told { Barring result (ended result ≡ with_pair (drafted self) pair) }
        ensures short { Lacking result (coefficient_fits pair ≡ true) }
    {
        if !pair.fits() {
            return Err(Fault::Rule(RuleFault::Coefficient(self.coefficients.len())));
        }
        self.coefficients.push(pair)?;
        if (self.coefficients.len() as u64) < self.settings.levels {
            return Ok((State::Collecting(self), Reply::Nothing));
        }
        self.complete()
    }

    // The rest of a line that begins with `coef`.
    pub(crate) fn take_pair(self, fields: &mut Fields) -> Result<(State, Reply), Fault>
        ensures short { Lacking result (pair_kept (pair_field fields.old) ≡ true) }
        ensures told { Barring result (ended result ≡ pair_answer (drafted self) (pair_field fields.old)) }
    {
        let pair = read_pair(fields)?;
        self.collect(pair)
    }
}
