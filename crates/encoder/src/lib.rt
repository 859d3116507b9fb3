// A message becomes its row. Each symbol of the row is the value of the message's function at a point, and the points above one
// x share the values there of the polynomials in x that stand at the powers of y.
#![tactic(auto)]

ghost use Rattle.std.specs.Prelude.{◌≡◌, ◌++◌, ◌≤◌, length, drop};
ghost use Rattle.curve.specs.Codes.{point_count};
ghost use Rattle.curve.specs.Given.{Message};
ghost use Rattle.encoder.specs.Encoding.{row_numbers, encode_answer, encode_output};

use curve::Code;
use evaluation::{column, fill_fibre, spread};
use products::Products;
pub use refusals::Refusal;

// The row of a message, written to the first n places. A row of the tape code takes 976 products: at each of the 16 x eleven
// for each of the 4 powers of y, five for x⁵, and then three at each of the 4 points above it.
pub fn encode_row(code: Code, message: &[u8], row: &mut [u8])
    requires message { Message code.q code.u message.now }
    requires room { point_count code.q ≤ length row.old }
    ensures { row.new ≡ row_numbers code.q code.u message.now ++ drop (point_count code.q) row.old }
{
    let q = code.q;
    let u = code.u;
    let places = spread(q, u, message);
    let width = u / q + 1;
    let products = Products::of(q);
    for x in 0..q * q {
        let values = column(products, x as u8, &places, width);
        fill_fibre(products, x, &values, row);
    }
}

// Encoding under a code: refused with 4, 5 or 7, or done.
fn encode_under(code: Code, message: &[u8], output: &mut [u8]) -> Result<(), Refusal>
    ensures value { result ≡ encode_answer code.q code.u message.now output.old }
    ensures output_left { output.new ≡ encode_output code.q code.u message.now output.old }
{
    if message.len() != code.k {
        return Err(Refusal::WrongLength);
    }
    if !symbols::all_symbols(code.q, message) {
        return Err(Refusal::NoSymbol);
    }
    if output.len() < code.n {
        return Err(Refusal::ShortOutput);
    }
    encode_row(code, message, output);
    Ok(())
}

// Encoding, for all inputs: refused with 1, 2, 4, 5 or 7, or done with the row in the first n places. The promise is two
// equations, so any two answers and any two outputs that it allows are equal.
pub fn encode(q: usize, u: usize, message: &[u8], output: &mut [u8]) -> Result<(), Refusal>
    ensures value { result ≡ encode_answer q u message.now output.old }
    ensures output_left { output.new ≡ encode_output q u message.now output.old }
{
    let code = curve::code_of(q, u)?;
    encode_under(code, message, output)
}
