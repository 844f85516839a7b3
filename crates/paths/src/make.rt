// Making a rule, and refusing what can be none.
ghost use Rattle.std.specs.Prelude.{◌≡◌, ◌-◌, ◌≤◌, ◌++◌, length, not, position, replicate};
ghost use Rattle.trees.specs.Refusal.{coefficients_of, lowest_unfit};
ghost use Rattle.trees.specs.Settings.{coefficient_fits, wanted};
ghost use Rattle.paths.specs.Making.{Made, coefficient_answer};

use crate::rule::{MOST_LEVELS, Rule};
use crate::shape::Shape;
use trees::fault::RuleFault;
use trees::settings::{Coefficient, Scheme, Settings};

// How many levels want coefficients, from level 0 on.
fn levels_with_coefficients(shape: &Shape) -> u32
    ensures { result ≡ coefficients_of shape.now.scheme shape.now.levels }
{
    match shape.scheme {
        Scheme::Thin | Scheme::Fat => shape.levels,
        Scheme::Trie => 0,
    }
}

// The first that is out of range.
fn first_unfit(coefficients: &[Coefficient]) -> Option<usize>
    ensures { result ≡ position (λ c. not (coefficient_fits c)) coefficients.now }
{
    coefficients
        .iter()
        .position(|coefficient| !coefficient.fits())
}

// Nothing where each level that wants coefficients has them in range, and no other level has any; else 2 COEFFICIENT.
fn check_coefficients(shape: &Shape, coefficients: &[Coefficient]) -> Result<(), RuleFault>
    ensures { result ≡ coefficient_answer (lowest_unfit 0 (coefficients_of shape.now.scheme shape.now.levels) coefficients.now) }
{
    let wanted = levels_with_coefficients(shape) as usize;
    let matched = wanted.min(coefficients.len());
    match first_unfit(&coefficients[..matched]) {
        Some(level) => Err(RuleFault::Coefficient(level)),
        None if wanted == coefficients.len() => Ok(()),
        None => Err(RuleFault::Coefficient(matched)),
    }
}

// At most 16 coefficients in a table of 16.
fn table_of(coefficients: &[Coefficient]) -> [Coefficient; MOST_LEVELS]
    requires { length coefficients.now ≤ 16 }
    ensures { result ≡ coefficients.now ++ replicate (16 - length coefficients.now) (record { a = 1; b = 0 }) }
{
    let mut table = [Coefficient { a: 1, b: 0 }; MOST_LEVELS];
    table[..coefficients.len()].copy_from_slice(coefficients);
    table
}

impl Rule {
    // The rule with these settings; 1 SETTING, 2 COEFFICIENT or 3 SIZE, in this order, where there is none.
    pub fn new(settings: Settings, coefficients: &[Coefficient]) -> Result<Rule, RuleFault>
        ensures { Made (wanted settings coefficients.now) result }
    {
        let shape = Shape::new(settings)?;
        check_coefficients(&shape, coefficients)?;
        let total = shape.total()?;
        Ok(Rule {
            shape,
            total,
            coefficients: table_of(coefficients),
        })
    }
}
