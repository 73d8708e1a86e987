// Numbers as a host hands them in, each 64 bits wide, as the values that the steps take. They are judged as they came and never cut: 257 is
// no method, 2 is no yes.
#![tactic(auto, unfolding(crate::specs::Arguments::is_yes, crate::specs::Arguments::byte_of, crate::specs::Arguments::classical_of, crate::specs::Arguments::kem_of))]

ghost use Rattle.std.specs.Prelude.{◌≡◌};
ghost use Rattle.arguments.specs.Arguments.{is_yes, byte_of, classical_of, wrong_by, kem_of};

use exchange::{Classical, Kem};
use methods::KForm;

// A yes is 1; every other number is a no.
pub fn is_yes(n: u64) -> bool
    ensures { result ≡ is_yes n }
{
    n == 1
}

// A role or a method as a byte; 0, which is neither, for a number that is no byte.
pub fn byte_of(n: u64) -> u8
    ensures { result ≡ byte_of n }
{
    u8::try_from(n).unwrap_or(0)
}

// The classical outcome: given so many bytes, or failed.
pub fn classical_of(given: u64, count: u64) -> Classical
    ensures { result ≡ classical_of given count }
{
    if is_yes(given) {
        Classical::Given(count as usize)
    } else {
        Classical::Failed
    }
}

// The presence of a KEM that is wrong where K has this form.
fn wrong_kem(form: KForm) -> Kem
    ensures { result ≡ wrong_by form }
{
    match form {
        KForm::Mpint => Kem::Done,
        KForm::Digest => Kem::Absent,
    }
}

// The KEM's outcome. A number that is none has a wrong form: it becomes the presence that is wrong for the method, which is 4.
pub fn kem_of(method: u8, kem: u64) -> Kem
    ensures { result ≡ kem_of method kem }
{
    match kem {
        0 => Kem::Absent,
        1 => Kem::Failed,
        2 => Kem::Done,
        _ => wrong_kem(methods::k_form(method)),
    }
}
