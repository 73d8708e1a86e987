// The causes in what the secret step is handed (SPECIFICATION 9.9): the primitives' outcomes, X, K_PQ, a server's K_S and S.
#![tactic(auto, unfolding(exchange::specs::Causes::rest_ok, exchange::specs::Causes::secret_cause, wire::specs::Causes::cause_if, wire::specs::Causes::cause_unless))]

ghost use Rattle.std.specs.Prelude.{◌≡◌};
ghost use Rattle.limits.specs.Refusals.{told};
ghost use Rattle.wire.specs.Causes.{cause_unless};
ghost use Rattle.methods.specs.Rows.{row_of};
ghost use Rattle.exchange.specs.Causes.{present, k_pq_for, rest_ok, secret_cause};

use exchange::{Classical, Kem};
use limits::Refusal;

// Whether a KEM's outcome is there.
fn is_present(kem: Kem) -> bool
    ensures { result ≡ present kem }
{
    !matches!(kem, Kem::Absent)
}

// How long K_PQ must be, by the KEM's outcome.
fn k_pq_for(kem: Kem) -> usize
    ensures { result ≡ k_pq_for kem }
{
    match kem {
        Kem::Absent | Kem::Failed => 0,
        Kem::Done => limits::K_PQ_SIZE,
    }
}

// Whether what the secret step is handed beside X is right: the KEM's presence, K_PQ's length, a server's K_S and S.
fn rest_ok(role: u8, method: u8, kem: Kem, k_pq: &[u8], ks: &[u8], s: &[u8]) -> bool
    ensures { result ≡ rest_ok role (row_of method) kem k_pq.now ks.now s.now }
{
    methods::is_hybrid(methods::k_form(method)) == is_present(kem)
        && k_pq.len() == k_pq_for(kem)
        && (role != limits::SERVER
            || limits::in_range(1, limits::BLOB_MOST, ks.len())
                && methods::has_form(methods::s_shape(method), s))
}

// The refusal for a failed classical primitive: 4 where the rest is wrong, else 16.
fn failed_cause(
    role: u8,
    method: u8,
    kem: Kem,
    k_pq: &[u8],
    ks: &[u8],
    s: &[u8],
) -> Result<(), Refusal>
    ensures { told result ≡ cause_unless (rest_ok role (row_of method) kem k_pq.now ks.now s.now) 4 16 }
{
    if rest_ok(role, method, kem, k_pq, ks, s) {
        Err(Refusal::ClassicalFailed)
    } else {
        Err(Refusal::BadInput)
    }
}

// The first cause against the secret step: 4, then 16, then 17. A failed classical primitive has no X to look at. What they gave comes one by one, as the
// C interface hands it in.
pub fn secret_cause(
    role: u8,
    method: u8,
    cl: Classical,
    x: &[u8],
    kem: Kem,
    k_pq: &[u8],
    ks: &[u8],
    s: &[u8],
) -> Result<(), Refusal>
    ensures { told result ≡ secret_cause role method cl x.now kem k_pq.now ks.now s.now }
{
    let Classical::Given(n) = cl else {
        return failed_cause(role, method, kem, k_pq, ks, s);
    };
    let len = methods::x_len(method);
    if n != len || x.len() != len || !rest_ok(role, method, kem, k_pq, ks, s) {
        return Err(Refusal::BadInput);
    }
    if methods::zero_check(method) && secret::leading_zeros(x) == x.len() {
        return Err(Refusal::ClassicalFailed);
    }
    if matches!(kem, Kem::Failed) {
        return Err(Refusal::KemFailed);
    }
    Ok(())
}
