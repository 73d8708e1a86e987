// What a host looks up of a method: its sizes and rules, and its name.
#![tactic(auto)]

ghost use Rattle.std.specs.Prelude.{◌≡◌, cond, length};
ghost use Rattle.methods.specs.Rows.{row_of, name_of};
ghost use Rattle.writers.specs.Writers.{wrote, leaves};
ghost use Rattle.lookups.specs.Lookups.{method_cause, sizes_of, name_cause};

use limits::Refusal;

// A yes/no as it is told: 1 or 0.
pub fn told(yes: bool) -> u64
    ensures { result ≡ cond yes 1 0 }
{
    u64::from(yes)
}

// A sign as it is told.
pub fn told_sign(sign: i8) -> i64
    ensures { result ≡ sign }
{
    i64::from(sign)
}

// The sizes and rules of a method: lengths of C and of S, each with the place where its classical part begins, of X and of the digest,
// whether it is a hybrid, and whether an all-zero X is refused. 2 and all 0 for a number that is no method. A number and not a Result: the C interface
// needs it, since what is lent is told on a refusal too.
pub fn method_sizes(method: u64, sizes: &mut [u64; 8]) -> u64
    ensures { (result ≡ method_cause method) × (sizes.new ≡ sizes_of method) }
{
    let m = arguments::byte_of(method);
    let c = methods::c_shape(m);
    let s = methods::s_shape(m);
    let x = methods::x_len(m);
    *sizes = [
        c.len as u64,
        c.classical as u64,
        s.len as u64,
        s.classical as u64,
        x as u64,
        methods::digest_len(m) as u64,
        told(methods::is_hybrid(methods::k_form(m))),
        told(methods::zero_check(m)),
    ];
    if x == 0 {
        return Refusal::NoMethod as u64;
    }
    0
}

// Writes the name of a method at the beginning of out: 2 for a number that is none, then 5. A number and a count that is lent: the C interface needs it.
pub fn method_name(method: u64, out: &mut [u8], count: &mut u64) -> u64
    ensures { let name = name_of (row_of method) in
        let cause = name_cause (length out.old) method in
        (result ≡ cause) × (count.new ≡ (wrote cause name).count) × (out.new ≡ leaves cause name out.old) }
{
    let m = arguments::byte_of(method);
    let len = method_names::name_len(m);
    *count = 0;
    if len == 0 {
        return Refusal::NoMethod as u64;
    }
    if out.len() < len {
        return Refusal::OutputTooShort as u64;
    }
    method_names::put_name(out, m);
    *count = len as u64;
    0
}
