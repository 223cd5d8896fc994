// The first field of a record that is wrong, and why.
ghost use Rattle.std.specs.Prelude.{◌≡◌, ◌≤◌};
ghost use Rattle.laws.specs.Split.{piece_of};
ghost use Rattle.faults.specs.Record.{on_commas, report_fault, whole_for, number_for, u_fault, k_fault, correction_from, correction_fault, request_fault, record_fault, end_pos};

use crate::cause::{Cause, FieldFault};
use crate::six::{Fields, at, six};
use crate::{cut, field};
use records::names::kind::FileKind;

fn field_at(s: &[u8], k: usize) -> &[u8]
    ensures { result.now ≡ piece_of 44 s.now k }
{
    text::piece(s, b',', k)
}

// The first comma that is missing, where there are fewer than `most`.
#[tactic(auto, unfolding(crate::specs::Record::on_commas))]
fn on_commas(most: usize, pos: usize, s: &[u8]) -> Result<(), FieldFault>
    requires { (most ≤ 11) × (pos ≤ 5) }
    ensures { result ≡ on_commas most pos s.now }
{
    let n = text::cuts(s, b',');
    if most <= n {
        return Ok(());
    }
    at(pos + 2 * n, Err(Cause::Length))
}

#[tactic(auto, unfolding(crate::specs::Record::report_fault))]
fn report(s: &[u8]) -> Result<(), FieldFault>
    ensures { result ≡ report_fault s.now }
{
    let missing = Err(Cause::Length);
    six(
        1,
        missing,
        missing,
        Fields {
            first: field_at(s, 0),
            last: field_at(s, 1),
            date: field_at(s, 2),
            gaining: field_at(s, 3),
            losing: field_at(s, 4),
            status: cut::rest(s, 5),
        },
    )
}

// What the U part of an objection must not leave empty.
#[tactic(auto, unfolding(crate::specs::Record::whole_for))]
fn whole_for(code: &[u8]) -> Result<(), Cause>
    ensures { result ≡ whole_for code.now }
{
    field::allowed(Ok(()), !field::objects(code))
}

// With any other code one part has a number.
#[tactic(auto, unfolding(crate::specs::Record::number_for))]
fn number_for(code: &[u8], first: &[u8]) -> Result<(), Cause>
    ensures { result ≡ number_for code.now first.now }
{
    field::allowed(Ok(()), field::objects(code) || !first.is_empty())
}

#[tactic(auto, unfolding(crate::specs::Record::u_fault))]
fn u_part(code: &[u8], first: &[u8], s: &[u8]) -> Result<(), FieldFault>
    ensures { result ≡ u_fault code.now first.now s.now }
{
    let missing = whole_for(code);
    six(
        3,
        missing,
        missing,
        Fields {
            first,
            last: field_at(s, 1),
            date: field_at(s, 2),
            gaining: field_at(s, 3),
            losing: field_at(s, 4),
            status: field_at(s, 5),
        },
    )
}

#[tactic(auto, unfolding(crate::specs::Record::k_fault))]
fn k_part(code: &[u8], first: &[u8], s: &[u8]) -> Result<(), FieldFault>
    ensures { result ≡ k_fault code.now first.now s.now }
{
    six(
        16,
        number_for(code, first),
        Ok(()),
        Fields {
            first: cut::behind(field_at(s, 6), 2),
            last: field_at(s, 7),
            date: field_at(s, 8),
            gaining: field_at(s, 9),
            losing: field_at(s, 10),
            status: cut::rest(s, 11),
        },
    )
}

#[tactic(auto, unfolding(crate::specs::Record::correction_from))]
fn correction_from(code: &[u8], mark: &[u8], first: &[u8], s: &[u8]) -> Result<(), FieldFault>
    ensures { result ≡ correction_from code.now mark.now first.now s.now }
{
    at(1, field::correction_code_alone(code))?;
    at(2, field::mark_alone(mark, b'U'))?;
    u_part(code, first, s)?;
    at(15, field::mark_alone(cut::first(field_at(s, 6), 2), b'K'))?;
    k_part(code, first, s)?;
    on_commas(11, 5, s)
}

#[tactic(auto, unfolding(crate::specs::Record::correction_fault))]
fn correction(s: &[u8]) -> Result<(), FieldFault>
    ensures { result ≡ correction_fault s.now }
{
    let head = field_at(s, 0);
    let width = cut::code_width(head);
    let marked = cut::behind(head, width);
    correction_from(
        cut::first(head, width),
        cut::first(marked, 2),
        cut::behind(marked, 2),
        s,
    )
}

#[tactic(auto, unfolding(crate::specs::Record::request_fault))]
fn request(s: &[u8]) -> Result<(), FieldFault>
    ensures { result ≡ request_fault s.now }
{
    at(1, field::code_alone(field_at(s, 0), Err(Cause::Length)))?;
    at(3, field::date_alone(field_at(s, 1), Ok(())))?;
    at(5, field::nothing_alone(cut::rest(s, 2)))?;
    on_commas(2, 2, s)
}

#[tactic(auto, unfolding(crate::specs::Record::record_fault))]
fn search(kind: FileKind, line: &[u8]) -> Result<(), FieldFault>
    ensures { result ≡ record_fault kind line.now }
{
    match kind {
        FileKind::Default | FileKind::Response => report(line),
        FileKind::Correction => correction(line),
        FileKind::Request => request(line),
    }
}

// The first field of a line that is wrong, if it is no record of a file of this kind. Records are told soon; only what is none is searched.
#[tactic(auto, using(crate::proofs::RecordExact::record_has_no_fault))]
pub fn check(kind: FileKind, line: &[u8]) -> Result<(), FieldFault>
    ensures { result ≡ record_fault kind line.now }
{
    if records::line::is_record(kind, line) {
        return Ok(());
    }
    search(kind, line)
}

// The "Pos." of the CR that ends a record.
pub fn end_pos(kind: FileKind) -> usize
    ensures { result ≡ end_pos kind }
{
    match kind {
        FileKind::Default | FileKind::Response => 12,
        FileKind::Correction => 27,
        FileKind::Request => 5,
    }
}
