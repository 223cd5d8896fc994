// The gaining network of a report: a code, or nothing, which stands for the owner of the number. No `Option<Code>`, which is what its field holds: that nothing
// stands there names a network too, and only `From` says which.
ghost use Rattle.std.specs.Prelude.{◌≡◌};
ghost use Rattle.fields.specs.Gaining.{gaining_of, gaining_field};

use crate::code::Code;

#[derive(Clone, Copy, PartialEq, Eq)]
pub enum Gaining {
    Code(Code),
    Owner,
}

// What its field says.
impl From<Option<Code>> for Gaining {
    ghost from_gives = { λ field gaining. gaining ≡ gaining_of field };

    fn from(field: Option<Code>) -> Gaining {
        match field {
            Some(c) => Gaining::Code(c),
            None => Gaining::Owner,
        }
    }
}

// What stands in its field.
impl From<Gaining> for Option<Code> {
    ghost from_gives = { λ gaining field. field ≡ gaining_field gaining };

    fn from(gaining: Gaining) -> Option<Code> {
        match gaining {
            Gaining::Code(c) => Some(c),
            Gaining::Owner => None,
        }
    }
}
