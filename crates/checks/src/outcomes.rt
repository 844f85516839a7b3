// What is refused, as numbers to compare.
use paths::rule::Rule;
use refusals::Refusal;
use trees::settings::{Coefficient, Scheme, Settings};

// The number of a refusal, or nothing where there is none.
pub(crate) fn number_of<T: Drop, F: Refusal + Drop>(res: Result<T, F>) -> Option<u32> {
    Some(res.err()?.number())
}

// The number of a refusal and its detail, or nothing where there is none.
pub(crate) fn refusal_of<T: Drop, F: Refusal + Drop>(
    res: Result<T, F>,
) -> Option<(u32, Option<u64>)> {
    let fault = res.err()?;
    Some((fault.number(), fault.detail()))
}

// The refusal of a rule with these numbers m, k, L and t, and these coefficients.
pub(crate) fn refused(
    scheme: Scheme,
    numbers: [u64; 4],
    coefficients: &[Coefficient],
) -> Option<(u32, Option<u64>)> {
    let [cells, children, levels, tries] = numbers;
    refusal_of(Rule::new(
        Settings {
            scheme,
            cells,
            children,
            levels,
            tries,
        },
        coefficients,
    ))
}
