// What the bytes of a record say, by the kind of its file: 0 default, 1 correction. The kind is a byte of the store, which may be any: `number_in`,
// `first_in`, `class_in` and `says_in` answer for each.
ghost use Rattle.std.specs.Prelude.{◌≡◌, cond, eqb};
ghost use Rattle.laws.specs.Split.{piece_of};
ghost use Rattle.fields.specs.Number.{digits_field_of};
ghost use Rattle.layout.specs.Report.{report_of};
ghost use Rattle.layout.specs.Correction.{correction_of};
ghost use Rattle.rules.specs.Records.{no_number, number_in_report, number_in_correction, number_in, field_digits, first_in, class_of_kind, class_of_report, class_in, published_by, reported, objected, corrected, says_in};

use entries::report::Published;
use fields::kind::Kind;
use fields::number::{Digits, Number};
use layout::correction::Correction;
use layout::report::Report;
use verdict::correction_rules::Objection;
use verdict::step::Says;

// No record of a file names it.
fn no_number() -> Number
    ensures { result ≡ no_number }
{
    let empty = Digits(1);
    Number {
        first: empty,
        last: empty,
    }
}

fn number_in_report(bytes: &[u8]) -> Number
    ensures { result ≡ number_in_report (report_of bytes.now) }
{
    Report::read(bytes).map_or(no_number(), |r| r.number)
}

fn number_in_correction(bytes: &[u8]) -> Number
    ensures { result ≡ number_in_correction (correction_of bytes.now) }
{
    Correction::read(bytes).map_or(no_number(), Correction::named_number)
}

// The number that a record names.
#[tactic(auto, unfolding(crate::specs::Records::number_in))]
pub fn number_in(kind: u8, bytes: &[u8]) -> Number
    ensures { result ≡ number_in kind bytes.now }
{
    match kind {
        0 => number_in_report(bytes),
        1 => number_in_correction(bytes),
        _ => no_number(),
    }
}

// What the digits n before a byte that ends them are worth: 1 where it is no comma.
#[tactic(auto, using(std::proofs::lemmas::Bool::Decides::nat_tests))]
fn ended(b: u8, n: u64) -> u64
    ensures { result ≡ cond (eqb b 44) n 1 }
{
    if b == b',' { n } else { 1 }
}

// The number field before the first comma, behind a leading 1; 1 where it is empty, or is no number field. A number field has at most 11 digits,
// so no more are read.
fn first_field(s: &[u8]) -> u64
    ensures { result ≡ field_digits (digits_field_of (piece_of 44 s.now 0)) }
{
    let (field, behind) = s.split_at(s.len().min(11));
    let mut n: u64 = 1;
    for &b in field {
        if !b.is_ascii_digit() {
            return ended(b, n);
        }
        n = n * 10 + u64::from(b - b'0');
    }
    match behind.first() {
        Some(&b) => ended(b, n),
        None => n,
    }
}

// The first number field of a record as far as its first comma: behind the code and "U:" of a correction.
#[tactic(auto, unfolding(crate::specs::Records::first_in))]
pub fn first_in(kind: u8, bytes: &[u8]) -> u64
    ensures { result ≡ first_in kind bytes.now }
{
    match kind {
        0 => first_field(bytes),
        1 if 6 <= bytes.len() => first_field(&bytes[6..]),
        _ => 1,
    }
}

// The class of a report: P, then L, then Z.
fn class_of(k: Kind) -> u64
    ensures { result ≡ class_of_kind k }
{
    match k {
        Kind::P => 8,
        Kind::L => 9,
        Kind::Z => 10,
    }
}

fn class_of_report(bytes: &[u8]) -> u64
    ensures { result ≡ class_of_report (report_of bytes.now) }
{
    Report::read(bytes).map_or(11, |r| class_of(r.kind))
}

// The class of a record within its day.
#[tactic(auto, unfolding(crate::specs::Records::class_in))]
pub fn class_in(kind: u8, bytes: &[u8]) -> u64
    ensures { result ≡ class_in kind bytes.now }
{
    match kind {
        0 => class_of_report(bytes),
        1 => 2,
        _ => 98 + u64::from(kind),
    }
}

// A report without its number.
fn published(r: Report) -> Published
    ensures { result ≡ published_by r }
{
    Published {
        kind: r.kind,
        date: r.date,
        losing: r.losing,
        gaining: r.gaining,
    }
}

fn says_report(bytes: &[u8]) -> Says
    ensures { result ≡ reported (report_of bytes.now) }
{
    Report::read(bytes).map_or(Says::Other, |r| Says::Reported(published(r)))
}

// What an objection with this code says against the report of its U part.
fn says_objection(code: u16, read: Option<Report>) -> Says
    ensures { result ≡ objected code read }
{
    read.map_or(Says::Other, |r| {
        Says::Objected(Objection {
            code,
            named: published(r),
        })
    })
}

fn says_correction(bytes: &[u8]) -> Says
    ensures { result ≡ corrected (correction_of bytes.now) }
{
    let Some(c) = Correction::read(bytes) else {
        return Says::Other;
    };
    if c.code.is_objection() {
        return says_objection(c.code.0, c.named_report());
    }
    Says::Other
}

// What a record says.
#[tactic(auto, unfolding(crate::specs::Records::says_in))]
pub fn says_in(kind: u8, bytes: &[u8]) -> Says
    ensures { result ≡ says_in kind bytes.now }
{
    match kind {
        0 => says_report(bytes),
        1 => says_correction(bytes),
        _ => Says::Other,
    }
}
