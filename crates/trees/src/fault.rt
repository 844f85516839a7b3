// Why settings are refused.
ghost use Rattle.trees.specs.Refusal.{rule_number, rule_detail};

use refusals::Refusal;

#[derive(Clone, Copy, PartialEq, Eq, Debug)]
pub enum RuleFault {
    // 1 SETTING: a number outside its range, a trie whose m and k do not fit, or a level past the last.
    Setting,
    // 2 COEFFICIENT: the lowest level whose coefficients are out of range, missing or extra.
    Coefficient(usize),
    // 3 SIZE: more cells than 1048576.
    Size,
}

impl Refusal for RuleFault {
    ghost number_of = { rule_number };

    ghost detail_of = { rule_detail };

    fn number(&self) -> u32 {
        match self {
            RuleFault::Setting => 1,
            RuleFault::Coefficient(_) => 2,
            RuleFault::Size => 3,
        }
    }

    fn detail(&self) -> Option<u64> {
        match self {
            RuleFault::Coefficient(level) => Some(*level as u64),
            RuleFault::Setting | RuleFault::Size => None,
        }
    }
}
