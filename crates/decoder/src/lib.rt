// A received row becomes the message that its votes give, or a refusal.
#![tactic(auto)]

ghost use Rattle.std.specs.Prelude.{◌≡◌};
ghost use Rattle.published.specs.Picture.{area_size};
ghost use Rattle.decoder.specs.Decoding.{decoded, decode_answer, decode_work, decode_message, decode_corrected};
ghost use Rattle.voting.specs.Voting.{cleared};
ghost use Rattle.curve.specs.Given.{Received};
ghost use Rattle.decoder.specs.FullRows.{Room, message_after, corrected_after};
ghost use Rattle.decoder.specs.Undamaged.{Undamaged};
ghost use Rattle.decoder.specs.WithinReach.{WithinReach};

use curve::Code;
pub use refusals::Refusal;
use symbols::MOST_POINTS;

// Decodes a full row of symbols: votes, encodes the votes again, and accepts what is within reach.
pub fn decode_row(
    code: Code,
    row: &[u8],
    work: &mut [u8],
    message: &mut [u8],
    corrected: &mut [u8],
) -> Result<usize, Refusal>
    requires received { Received code.q code.u row.now }
    requires room { Room code.q code.u work.old message.old corrected.old }
    ensures value { result ≡ decoded code.q code.u row.now }
    ensures work_left { work.new ≡ cleared (area_size code.q) work.old }
    ensures message_left { message.new ≡ message_after code.q code.u row.now message.old }
    ensures corrected_left { corrected.new ≡ corrected_after code.q code.u row.now corrected.old }
{
    let Code { n, k, reach, .. } = code;
    let mut votes = [0u8; MOST_POINTS];
    voting::vote_all(code, row, work, &mut votes);
    let mut sent = [0u8; MOST_POINTS];
    let count = judging::judge(code, &votes[..k], row, &mut sent);
    if reach < count {
        return Err(Refusal::BeyondReach);
    }
    message[..k].copy_from_slice(&votes[..k]);
    corrected[..n].copy_from_slice(&sent[..n]);
    Ok(count)
}

// Decoding under a code: refusals 4, 5, 6 and 7 in this order, then what the row decodes to.
fn decode_under(
    code: Code,
    row: &[u8],
    work: &mut [u8],
    message: &mut [u8],
    corrected: &mut [u8],
) -> Result<usize, Refusal>
    ensures answered { result ≡ decode_answer code.q code.u row.now work.old message.old corrected.old }
    ensures work_left { work.new ≡ decode_work code.q code.u row.now work.old message.old corrected.old }
    ensures message_left { message.new
        ≡ decode_message code.q code.u row.now work.old message.old corrected.old }
    ensures corrected_left { corrected.new
        ≡ decode_corrected code.q code.u row.now work.old message.old corrected.old }
{
    if row.len() != code.n {
        return Err(Refusal::WrongLength);
    }
    if !symbols::all_symbols(code.q, row) {
        return Err(Refusal::NoSymbol);
    }
    if work.len() < workarea::area_size(code.q) {
        return Err(Refusal::ShortWork);
    }
    if message.len() < code.k || corrected.len() < code.n {
        return Err(Refusal::ShortOutput);
    }
    decode_row(code, row, work, message, corrected)
}

// Decodes a row: refusals 1, 2, 4, 5, 6 and 7 in this order, then 8 beyond reach; else accepted with the count.
pub fn decode(
    q: usize,
    u: usize,
    row: &[u8],
    work: &mut [u8],
    message: &mut [u8],
    corrected: &mut [u8],
) -> Result<usize, Refusal>
    ensures answered { result ≡ decode_answer q u row.now work.old message.old corrected.old }
    ensures work_left { work.new ≡ decode_work q u row.now work.old message.old corrected.old }
    ensures message_left { message.new
        ≡ decode_message q u row.now work.old message.old corrected.old }
    ensures corrected_left { corrected.new
        ≡ decode_corrected q u row.now work.old message.old corrected.old }
    ensures undamaged { Undamaged q u row.now work.old message.old corrected.old
        result message.new corrected.new }
    ensures within_reach { WithinReach q u row.now work.old message.old corrected.old
        result message.new corrected.new }
{
    let code = curve::code_of(q, u)?;
    decode_under(code, row, work, message, corrected)
}
