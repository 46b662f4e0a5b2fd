// The byte that begins a record. Apart from lib.rt, whose clauses cite the view of this type.
ghost use Rattle.journal.specs.Kinds.{Decodes};

use crate::NoCall;

// A withdrawal is a journal's only: the desk does not know it.
#[derive(Clone, Copy)]
pub(crate) enum Kind {
    Post,
    Turn,
    Look,
    Withdrawal,
}

impl TryFrom<u8> for Kind {
    type Error = NoCall;

    ghost try_from_gives = { Decodes };

    fn try_from(byte: u8) -> Result<Self, NoCall> {
        match byte {
            0x50 => Ok(Kind::Post),
            0x4D => Ok(Kind::Turn),
            0x4C => Ok(Kind::Look),
            0x57 => Ok(Kind::Withdrawal),
            _ => Err(NoCall::NotKnown),
        }
    }
}
