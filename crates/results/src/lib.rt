// Each answer as one integer, since an enum does not cross to C: 0 or the count when done, minus the refusal's number when
// refused. The numbers are the C interface: include/orbitspinet.h says them in words.
#![tactic(auto)]

ghost use Rattle.std.specs.Prelude.{◌≡◌};
ghost use Rattle.results.specs.Results.{
  refusal_result,
  done_result,
  count_result,
  verify_result,
  verify_at,
  was_accepted,
  CountFits,
};

use answers::Verdict;
use refusals::Refusal;

// Negative, so that no refusal can be taken for a count or a verdict.
fn of_refusal(why: Refusal) -> i64
    ensures { result ≡ refusal_result why }
{
    -i64::from(u8::from(why))
}

// What encoding and the stop service answer.
pub fn of_done(answer: Result<(), Refusal>) -> i64
    ensures { result ≡ done_result answer }
{
    match answer {
        Ok(()) => 0,
        Err(why) => of_refusal(why),
    }
}

// What decoding and writing answer.
pub fn of_count(answer: Result<usize, Refusal>) -> i64
    requires { CountFits answer }
    ensures { result ≡ count_result answer }
{
    match answer {
        Ok(count) => count as i64,
        Err(why) => of_refusal(why),
    }
}

pub fn of_verifying(answer: Result<Verdict, Refusal>) -> i64
    ensures { result ≡ verify_result answer }
{
    match answer {
        Ok(Verdict::Copied(_)) => 0,
        Ok(Verdict::Differs(_)) => 1,
        Ok(Verdict::Unreadable(_)) => 2,
        Err(why) => of_refusal(why),
    }
}

// Puts the total or the row into a place. After a refusal nothing is stored there, not even what it held: another thread may
// have written to it meanwhile.
pub fn put_place(answer: Result<Verdict, Refusal>, at: &mut u64)
    ensures { at.new ≡ verify_at answer at.old }
{
    if let Ok(
        Verdict::Copied(place) | Verdict::Differs(place) | Verdict::Unreadable(place),
    ) = answer
    {
        *at = place as u64;
    }
}

// Whether an integer that decoding answered tells an acceptance.
pub fn was_accepted(decoded: i64) -> bool
    ensures { result ≡ was_accepted decoded }
{
    decoded >= 0
}
