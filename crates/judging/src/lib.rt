// Judging a message against a row: the message is encoded again, and the places that differ are counted.
#![tactic(auto)]

ghost use Rattle.std.specs.Prelude.{◌≡◌, ◌==◌, ◌++◌, ◌≤◌, not, length, drop, count_by, zip};
ghost use Rattle.curve.specs.Codes.{point_count};
ghost use Rattle.encoder.specs.Encoding.{row_numbers};
ghost use Rattle.judging.specs.Judging.{count_of};
ghost use Rattle.curve.specs.Given.{Message};

use curve::Code;

// In how many places two rows differ.
fn count_differing(a: &[u8], b: &[u8]) -> usize
    ensures { result ≡ count_by (λ p. not (p.0 == p.1)) (zip a.now b.now) }
{
    a.iter().zip(b).filter(|(x, y)| x != y).count()
}

// Writes the message's row into `sent`, and counts the places where the row differs from it.
pub fn judge(code: Code, message: &[u8], row: &[u8], sent: &mut [u8]) -> usize
    requires message { Message code.q code.u message.now }
    requires row_len { length row.now ≡ point_count code.q }
    requires room { point_count code.q ≤ length sent.old }
    ensures value { result ≡ count_of code.q code.u message.now row.now }
    ensures sent_after { sent.new ≡ row_numbers code.q code.u message.now ++ drop (point_count code.q) sent.old }
{
    encoder::encode_row(code, message, sent);
    let n = code.n;
    count_differing(&sent[..n], row)
}
