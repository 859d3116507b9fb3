// Whether a payload can be written.
ghost use Rattle.std.specs.Prelude.{◌≡◌};
ghost use Rattle.block.specs.Writing.{is_payload};

use layout::{MESSAGE_BYTES, MOST_ROWS};

// Whether a payload is whole messages, at least one and at most 1,024.
#[tactic(auto, unfolding(crate::specs::Writing::is_payload, crate::specs::Writing::rows_filled))]
pub fn is_payload(payload: &[u8]) -> bool
    ensures { result ≡ is_payload payload.now }
{
    payload.len().is_multiple_of(MESSAGE_BYTES)
        && (1..=MOST_ROWS).contains(&(payload.len() / MESSAGE_BYTES))
}
