// Drawing codes: 1 to 12 letters, digits and hyphens.
ghost use Rattle.std.specs.Prelude.{◌≡◌, ◌==◌, true, false, take, position, MatchResult};
ghost use Rattle.keys.specs.Codes.{after_byte, all_of_code, code_admissible, code_text, of_code, padded};

use crate::fault::KeyFault;

// The code of a drawing, with zero bytes up to 12.
#[derive(Clone, Copy)]
pub struct DrawingCode {
    pub(crate) bytes: [u8; 12],
    ghost good: { code_admissible bytes ≡ true },
}

// What a byte at a place makes of a code whose text has ended or not: whether it has ended now.
fn after(byte: u8, ended: bool, place: usize) -> Option<bool>
    ensures { result ≡ after_byte byte ended place }
{
    match (byte, ended) {
        (b'A'..=b'Z' | b'0'..=b'9' | b'-', false) => Some(false),
        (0, _) if place > 0 => Some(true),
        _ => None,
    }
}

// Whether a byte may stand in the text of a code: whether it could stand first, which padding could not.
fn is_of_code(byte: u8) -> bool
    ensures { result ≡ of_code byte }
{
    after(byte, false, 0).is_some()
}

// Whether all bytes are of a code.
fn is_text(text: &[u8]) -> bool
    ensures { result ≡ all_of_code text.now }
{
    text.iter().all(|byte| is_of_code(*byte))
}

// Where the padding begins, if there is any.
fn first_zero(bytes: &[u8]) -> Option<usize>
    ensures { result ≡ position (λ b. b == 0) bytes.now }
{
    bytes.iter().position(|byte| *byte == 0)
}

// Whether these are the bytes of a drawing code.
pub(crate) fn is_code(bytes: &[u8]) -> bool
    ensures { result ≡ code_admissible bytes.now }
{
    if bytes.len() != 12 {
        return false;
    }
    bytes
        .iter()
        .enumerate()
        .try_fold(false, |ended, (place, byte)| after(*byte, ended, place))
        .is_some()
}

impl DrawingCode {
    // The code with this text; 4 KEY where it is empty, past 12 bytes, or holds another byte than A to Z, 0 to 9 and hyphen.
    // (A constructor that validates, as that of sheet numbers.)
    pub fn new(text: &[u8]) -> Result<DrawingCode, KeyFault>
        ensures { MatchResult result (λ k. (code_text text.now ≡ true) × (k.bytes ≡ padded text.now)) (λ _. code_text text.now ≡ false) }
    {
        if text.is_empty() || text.len() > 12 || !is_text(text) {
            return Err(KeyFault::Inadmissible);
        }
        let mut bytes = [0; 12];
        bytes[..text.len()].copy_from_slice(text);
        Ok(DrawingCode { bytes })
    }

    // How long its text is: the rest of its bytes are padding.
    #[tactic(auto, using(crate::proofs::TextEnds::text_ends_there, crate::proofs::TextEnds::rest_is_padding))]
    pub fn text_len(&self) -> usize
        ensures text { code_text (take result self.now.bytes) ≡ true }
        ensures rest { self.now.bytes ≡ padded (take result self.now.bytes) }
    {
        first_zero(&self.bytes).unwrap_or(12)
    }
}
