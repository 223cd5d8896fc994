// The kinds of file by number.
ghost use Rattle.std.specs.Prelude.{◌≡◌};
ghost use Rattle.capi.specs.Kinds.{kind_by};

use records::names::kind::FileKind;

// 0 default, 1 correction, 2 request; any other number is a response file.
#[tactic(auto, unfolding(crate::specs::Kinds::kind_by))]
pub fn kind_by(kind: u8) -> FileKind
    ensures { result ≡ kind_by kind }
{
    match kind {
        0 => FileKind::Default,
        1 => FileKind::Correction,
        2 => FileKind::Request,
        _ => FileKind::Response,
    }
}
