// One key exchange, as a record that goes in by value and comes back: its types, and whether a number is a method's or a role's. What its steps do is
// defined in specs/; the code of the steps stands in the crates above.
#![tactic(auto, unfolding(crate::specs::Causes::method_ok, crate::specs::Causes::role_ok))]

ghost use Rattle.std.specs.Prelude.{◌≡◌};
ghost use Rattle.exchange.specs.Causes.{method_ok, role_ok};

// How far an exchange has come.
#[derive(Clone, Copy, PartialEq)]
pub enum Stage {
    // V_C, V_S, I_C and I_S are in the room.
    Started,
    // Client: own C went out.
    CSent,
    // Server: C came in.
    InitRead,
    // Client: K_S and S came in.
    ReplyRead,
    // K and H are known, and the hash input is whole.
    SecretDone,
    // Every step of the role was accepted.
    Complete,
    // Ended for good, with the number of the refusal that did it.
    Failed(u8),
}

// The lengths of the fields in the room; 0 where a field is not there.
#[derive(Clone, Copy, Default)]
pub struct Lengths {
    pub vc: usize,
    pub vs: usize,
    pub ic: usize,
    pub is: usize,
    pub ks: usize,
    pub c: usize,
    pub s: usize,
}

// What lasts over the exchanges of one connection: the session identifier, which is the first H of a completed exchange, its length, and how many
// exchanges were completed. All zeros until the first is. The length stands beside it: memory is fixed, so there is
// no heap for a Vec, and demand 3's `session_is` speaks of both.
#[derive(Clone, Copy)]
pub struct Session {
    pub id: [u8; limits::H_SIZE],
    pub len: usize,
    pub count: u64,
}

// An exchange. Role 1 is the client's, 2 the server's. The K record and H are all zeros until the secret step, after a peer's fault, and where an
// exchange begins again. Role and method stay numbers: they may be any byte of a host's, and values' `load` and by_value's `step_number` promise their
// answer on each.
#[derive(Clone, Copy)]
pub struct Exchange {
    pub stage: Stage,
    pub role: u8,
    pub method: u8,
    pub lens: Lengths,
    pub k: [u8; limits::K_SIZE],
    pub h: [u8; limits::H_SIZE],
    pub session: Session,
}

// What the classical primitive gave: nothing, or so many bytes, lent beside it. No Option: `Call` of specs/Steps.antt, which demand 3 speaks of, and
// worked's examples name it and its variants.
#[derive(Clone, Copy)]
pub enum Classical {
    Failed,
    Given(usize),
}

// What the KEM gave.
#[derive(Clone, Copy)]
pub enum Kem {
    Absent,
    Failed,
    Done,
}

// What a step answers: its number, its counts (the second only at the signature step), the exchange as it now is, and where a payload
// that is answered 12 or 13 breaks. A number beside them, and no Result: the exchange comes back on a refusal too, and demand 3's `History` speaks of both.
#[derive(Clone, Copy)]
pub struct Step {
    pub number: u8,
    pub count: usize,
    pub second: usize,
    pub exchange: Exchange,
    pub position: usize,
}

// What the secret step answers: a step's answer, and H with zeros after it.
#[derive(Clone, Copy)]
pub struct SecretStep {
    pub step: Step,
    pub h: [u8; limits::H_SIZE],
}

// Whether a number is a method's.
pub fn is_method(method: u8) -> bool
    ensures { result ≡ method_ok method }
{
    (1..=limits::METHOD_LAST).contains(&method)
}

// Whether a number is a role's.
pub fn is_role(role: u8) -> bool
    ensures { result ≡ role_ok role }
{
    (limits::CLIENT..=limits::SERVER).contains(&role)
}
