// Fields with the comma behind each, laid into a lent buffer; what follows them is the answer. Each can hold its value.
ghost use Rattle.std.specs.Prelude.{◌≡◌, true, ◌+◌, ◌≤◌, length};
ghost use Rattle.laws.specs.Overlay.{Laid};
ghost use Rattle.fields.specs.Code.{maybe_code_fits};
ghost use Rattle.fields.specs.CorrectionCode.{correction_code_fits};
ghost use Rattle.fields.specs.Number.{number_fits};
ghost use Rattle.layout.specs.Putting.{followed, number_followed, networks_followed, head_text, between_parts};

use crate::field::Field;
use fields::code::Code;
use fields::correction_code::CorrectionCode;
use fields::number::Number;

pub(crate) fn put<T: Field>(field: T, out: &mut [u8], at: usize) -> usize
    requires { (at + length (followed (T.text field)) ≤ length out.old) × (T.fits field ≡ true) }
    ensures { Laid out.old at (followed (T.text field)) out.new result }
{
    let comma = field.write(out, at);
    text::put_byte(out, comma, b',')
}

// Both fields of a number.
#[tactic(auto, using(crate::proofs::PutLaws::behind))]
pub(crate) fn put_number(number: Number, out: &mut [u8], at: usize) -> usize
    requires { (at + length (number_followed number) ≤ length out.old) × (number_fits number ≡ true) }
    ensures { Laid out.old at (number_followed number) out.new result }
{
    let behind = put(number.first, out, at);
    put(number.last, out, behind)
}

// Both networks.
#[tactic(auto, using(crate::proofs::PutLaws::behind))]
pub(crate) fn put_networks(
    gaining: Option<Code>,
    losing: Option<Code>,
    out: &mut [u8],
    at: usize,
) -> usize
    requires { (at + length (networks_followed gaining losing) ≤ length out.old) × (maybe_code_fits gaining ≡ true) × (maybe_code_fits losing ≡ true) }
    ensures { Laid out.old at (networks_followed gaining losing) out.new result }
{
    let behind = put(gaining, out, at);
    put(losing, out, behind)
}

// The code of a correction, and `U:`.
#[tactic(auto, using(crate::proofs::PutLaws::behind))]
pub(crate) fn put_head(code: CorrectionCode, out: &mut [u8], at: usize) -> usize
    requires { (at + length (head_text code) ≤ length out.old) × (correction_code_fits code ≡ true) }
    ensures { Laid out.old at (head_text code) out.new result }
{
    let behind = code.write(out, at);
    let colon = text::put_byte(out, behind, b'U');
    text::put_byte(out, colon, b':')
}

// `,K:`, between the two parts.
#[tactic(auto, using(crate::proofs::PutLaws::behind))]
pub(crate) fn put_between(out: &mut [u8], at: usize) -> usize
    requires { at + 3 ≤ length out.old }
    ensures { Laid out.old at between_parts out.new result }
{
    let letter = text::put_byte(out, at, b',');
    let colon = text::put_byte(out, letter, b'K');
    text::put_byte(out, colon, b':')
}
