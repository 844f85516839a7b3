// The listing, line by line.
ghost use Rattle.std.specs.Prelude.{◌≡◌, true, is_ok};
ghost use Rattle.lines.specs.Readers.{all_of};
ghost use Rattle.paths.specs.Rules.{settings_of};
ghost use Rattle.listing.specs.Drafts.{drafted};
ghost use Rattle.listing.specs.Machine.{Barring, Lacking, OfState, Outcome, Steps, after_shortage, answered, collecting, ended, key_answer, key_of, phase, ready, set_answer, set_out, spelled_by, taken, waiting, wants_memory};
ghost use Rattle.listing.specs.Wishes.{set_line};

use crate::draft::Draft;
use crate::fault::Fault;
use crate::state::{Reply, State};
use crate::wish::{Kind, Wish};
use keys::code::DrawingCode;
use keys::fault::KeyFault;
use keys::kind::Key;
use keys::sheet::SheetNumber;
use lines::field::Fields;
use lines::input::check_length;
use paths::cells::path_cells;
use paths::rule::Rule;
use paths::shape::Shape;
use std::alloc::Global;
use std::marker::Model;
use trees::fault::RuleFault;
use trees::settings::Scheme;

// What a `set` line asks for is begun: a trie wants no coefficients.
fn begin(heap: Global, wish: Wish) -> Result<(State, Reply), Fault>
    ensures { ended result ≡ set_out wish }
{
    if !(1..=256).contains(&wish.groups) {
        return Err(Fault::Rule(RuleFault::Setting));
    }
    let Wish { kind, settings, .. } = wish;
    let _ = Shape::new(settings)?;
    let draft = Draft {
        kind,
        settings,
        coefficients: Vec::new(heap),
    };
    match settings.scheme {
        Scheme::Thin | Scheme::Fat => Ok((State::Collecting(draft), Reply::Nothing)),
        Scheme::Trie => draft.complete(),
    }
}

// The bytes of a key, where there is one.
fn spelled<K: Key + Drop>(key: Result<K, KeyFault>) -> Result<[u8; 12], Fault>
    ensures { result ≡ spelled_by K.spelling key }
{
    Ok(key?.to_bytes())
}

// The bytes of the key that is a line's only field.
fn read_key(kind: Kind, line: &[u8]) -> Result<[u8; 12], Fault>
    ensures { result ≡ key_of kind (all_of line.now) }
{
    let mut fields = Fields::new(line);
    match kind {
        Kind::Num => {
            let number = fields.last_value()?;
            spelled(SheetNumber::new(number))
        }
        Kind::Code => {
            let field = fields.text()?;
            fields.end()?;
            spelled(DrawingCode::new(field.text))
        }
    }
}

// The path of a key.
fn list(heap: Global, kind: Kind, rule: &Rule, line: &[u8]) -> Result<Reply, Fault>
    ensures short { Lacking result (is_ok (key_of kind (all_of line.now)) ≡ true) }
    ensures told { Barring result (◌≡◌ {A = Outcome} (answered result, ready kind (settings_of rule.now)) (key_answer kind (settings_of rule.now) (key_of kind (all_of line.now)))) }
{
    let key = read_key(kind, line)?;
    let cells = path_cells(heap, rule, &key)?;
    Ok(Reply::Path { cells })
}

// What waits for the next line, and the answer; a refusal here goes back to waiting.
fn settled(res: Result<(State, Reply), Fault>) -> (State, Result<Reply, Fault>)
    ensures { ◌≡◌ {A = Outcome} (answered result.1, phase result.0) (ended res) }
{
    match res {
        Ok((state, reply)) => (state, Ok(reply)),
        Err(fault) => (State::Waiting, Err(fault)),
    }
}

// A line while settings are waited for.
fn wait(heap: Global, line: &[u8]) -> Result<(State, Reply), Fault>
    ensures { ended result ≡ set_answer (set_line line.now) }
{
    begin(heap, Wish::read(line)?)
}

// A line while coefficients are collected.
fn take_coef(draft: Draft, line: &[u8]) -> (State, Result<Reply, Fault>)
    ensures short { Lacking result.1 ((wants_memory (collecting (drafted draft)) line.now ≡ true) × (phase result.0 ≡ waiting)) }
    ensures told { Barring result.1 (◌≡◌ {A = Outcome} (answered result.1, phase result.0) (taken (collecting (drafted draft)) line.now)) }
{
    let mut fields = Fields::new(line);
    match fields.word(b"coef") {
        Ok(()) => settled(draft.take_pair(&mut fields)),
        Err(fault) => (State::Collecting(draft), Err(Fault::Line(fault))),
    }
}

impl State {
    // Takes one line: what waits for the next, and the answer.
    fn take(self, heap: Global, line: &[u8]) -> (State, Result<Reply, Fault>)
        ensures told { Barring result.1 (◌≡◌ {A = Outcome} (answered result.1, phase result.0) (taken (phase self) line.now)) }
        ensures short { Lacking result.1 ((wants_memory (phase self) line.now ≡ true) × (phase result.0 ≡ after_shortage (phase self))) }
    {
        match self {
            State::Waiting => settled(wait(heap, line)),
            State::Collecting(draft) => take_coef(draft, line),
            State::Ready { kind, rule } => {
                let answer = list(heap, kind, &rule, line);
                (State::Ready { kind, rule }, answer)
            }
        }
    }
}

// The listing between two lines.
#[derive(Drop)]
pub struct Listing {
    state: State,
}

// What it waits for.
impl Model for Listing {
    ghost use Rattle.listing.specs.Machine.{Phase, phase};

    ghost Value = { Phase };

    ghost view = { λ l. phase l.state };
}

impl Listing {
    // Waiting for settings.
    pub fn new() -> Listing
        ensures { result ≡ waiting }
    {
        Listing {
            state: State::Waiting,
        }
    }

    // Answers one line; 15 LINE, and all as it was, where it is too long.
    pub fn step(&mut self, heap: Global, line: &[u8]) -> Result<Reply, Fault>
        ensures steps { Steps self.old line.now result self.new }
        ensures states { OfState self.old × OfState self.new }
    {
        // (A look at the field, so that the second clause is known of a line that is too long as well.)
        let _ = &self.state;
        check_length(line)?;
        let state = std::mem::replace(&mut self.state, State::Waiting);
        let (after, answer) = state.take(heap, line);
        self.state = after;
        answer
    }
}
