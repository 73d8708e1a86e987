// The table of methods (SPECIFICATION 5.1), a row for each number, with the sizes and rules of its exchange: its columns, and the form of a public
// value. The rows themselves are in specs/Rows.antt.
#![tactic(auto, unfolding(crate::specs::Rows::row_of, crate::specs::Rows::rows, crate::specs::Form::length_fits, crate::specs::Form::lead_fits, crate::specs::Form::formed))]

ghost use Rattle.std.specs.Prelude.{◌≡◌};
ghost use Rattle.methods.specs.Rows.{hybrid, row_of};
ghost use Rattle.methods.specs.Form.{length_fits, lead_fits, formed};

// How K stands in the hash input: X as an mpint, or a hybrid's digest as a string.
#[derive(Clone, Copy, PartialEq, Eq)]
pub enum KForm {
    Mpint,
    Digest,
}

// A public value, C or S: its length on the wire, where its classical part begins, and whether that is a NIST point.
#[derive(Clone, Copy)]
pub struct Shape {
    pub len: usize,
    pub classical: usize,
    pub point: bool,
}

// A method's row, for the specifications alone. The name stands at the array's beginning, zeros after it. Number 0 is no method.
// Its form, the name's length and the number in it, stays: `row` of specs/Rows.antt and the theorems over `rows` hold it.
#[derive(Clone, Copy)]
pub struct Method {
    pub number: u8,
    pub name: [u8; 28],
    pub name_len: usize,
    pub c: Shape,
    pub s: Shape,
    pub x_len: usize,
    pub k_form: KForm,
    pub zero_check: bool,
    pub digest_len: usize,
}

// ---- the table's columns, each by its number: a row by value is large. A `static` of rows that are lent proves too, and is no plainer: a row takes
// eleven lines there, a value of a column one arm here. A method is a number, and every number is answered: the C interface and the lent bytes need it.

// How long C is.
fn c_len(number: u8) -> usize
    ensures { result ≡ (row_of number).c.len }
{
    match number {
        1 | 2 => 32,
        3 => 56,
        4 => 65,
        5 => 97,
        6 => 133,
        7 => 1249,
        8 => 1665,
        9 => 1216,
        _ => 0,
    }
}

// Where C's classical part begins.
fn c_classical(number: u8) -> usize
    ensures { result ≡ (row_of number).c.classical }
{
    match number {
        7 | 9 => 1184,
        8 => 1568,
        _ => 0,
    }
}

// How long S is.
fn s_len(number: u8) -> usize
    ensures { result ≡ (row_of number).s.len }
{
    match number {
        1 | 2 => 32,
        3 => 56,
        4 => 65,
        5 => 97,
        6 => 133,
        7 => 1153,
        8 => 1665,
        9 => 1120,
        _ => 0,
    }
}

// Where S's classical part begins.
fn s_classical(number: u8) -> usize
    ensures { result ≡ (row_of number).s.classical }
{
    match number {
        7 | 9 => 1088,
        8 => 1568,
        _ => 0,
    }
}

// Whether the classical part, of C as of S, is a NIST point.
fn is_point(number: u8) -> bool
    ensures { (result ≡ (row_of number).c.point) × (result ≡ (row_of number).s.point) }
{
    matches!(number, 4..=8)
}

// The shape of C.
pub fn c_shape(number: u8) -> Shape
    ensures { result ≡ (row_of number).c }
{
    Shape {
        len: c_len(number),
        classical: c_classical(number),
        point: is_point(number),
    }
}

// The shape of S. One function for both sides is no plainer: the side would go into two columns as well.
pub fn s_shape(number: u8) -> Shape
    ensures { result ≡ (row_of number).s }
{
    Shape {
        len: s_len(number),
        classical: s_classical(number),
        point: is_point(number),
    }
}

// How long X is; 0 for a number that is no method.
pub fn x_len(number: u8) -> usize
    ensures { result ≡ (row_of number).x_len }
{
    match number {
        1 | 2 | 4 | 7 | 9 => 32,
        3 => 56,
        5 | 8 => 48,
        6 => 66,
        _ => 0,
    }
}

// How K stands in the hash input.
pub fn k_form(number: u8) -> KForm
    ensures { result ≡ (row_of number).k_form }
{
    match number {
        7..=9 => KForm::Digest,
        _ => KForm::Mpint,
    }
}

// Whether a zero X is refused.
pub fn zero_check(number: u8) -> bool
    ensures { result ≡ (row_of number).zero_check }
{
    matches!(number, 1..=3 | 9)
}

// How long the method's digest is.
pub fn digest_len(number: u8) -> usize
    ensures { result ≡ (row_of number).digest_len }
{
    match number {
        1 | 2 | 4 | 7 | 9 => 32,
        5 | 8 => 48,
        3 | 6 => 64,
        _ => 0,
    }
}

// Whether K is a digest, as in the hybrids.
pub fn is_hybrid(form: KForm) -> bool
    ensures { result ≡ hybrid form }
{
    form == KForm::Digest
}

// Whether a public value of this shape may have n bytes.
pub fn length_fits(h: Shape, n: usize) -> bool
    ensures { result ≡ length_fits h n }
{
    n == h.len
}

// Whether a public value of this shape has the lead byte that its classical part must have.
pub fn lead_fits(h: Shape, value: &[u8]) -> bool
    ensures { result ≡ lead_fits h value.now }
{
    !h.point || value.get(h.classical) == Some(&4)
}

// Whether a public value has this shape: its length, and then its lead byte.
pub fn has_form(h: Shape, value: &[u8]) -> bool
    ensures { result ≡ formed h value.now }
{
    length_fits(h, value.len()) && lead_fits(h, value)
}
