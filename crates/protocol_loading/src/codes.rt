//! Why a protocol is refused, and the words of the codes.

ghost use Rattle.std.specs.Prelude.{◌≡◌};
ghost use Rattle.protocol_loading.specs.Codes.{code_text, refusal_by};

use std::fmt;

/// Why the bytes of a protocol's file are refused. The printed code of each is its number here, from 1.
#[derive(Clone, Copy)]
pub enum ProtocolCode {
    /// No token begins with this byte.
    BadByte,
    /// The comment that begins here has no end.
    OpenComment,
    /// The number that begins here has more digits than the limit.
    LongNumber,
    /// No file of the grammar goes on with the token that begins here, or ends here.
    Unexpected,
    /// What begins here would stand below the limit of levels.
    TooDeep,
    /// The name is not declared, or not yet.
    Unknown,
    /// The name is declared or bound twice.
    Twice,
    /// The name takes another number of arguments.
    Arity,
    /// The name is of another kind than is wanted.
    Kind,
    /// The variable, on the right of a rule, does not stand on its left.
    LooseVariable,
    /// What begins here passes a limit.
    TooMany,
    /// The query asks for the name of one of several restrictions.
    AmbiguousNew,
    /// The file has more bytes than a protocol's text may have. This is looked at before all else; its place is 1:1.
    LongFile,
    /// The phase is not later than the one in force, or in a query past the greatest.
    PhaseOrder,
}

impl ProtocolCode {
    /// The number of the code, and its name.
    fn words(self) -> &'static str
        ensures { result.now ≡ code_text (refusal_by self) }
    {
        match self {
            ProtocolCode::BadByte => "1 BadByte",
            ProtocolCode::OpenComment => "2 OpenComment",
            ProtocolCode::LongNumber => "3 LongNumber",
            ProtocolCode::Unexpected => "4 Unexpected",
            ProtocolCode::TooDeep => "5 TooDeep",
            ProtocolCode::Unknown => "6 Unknown",
            ProtocolCode::Twice => "7 Twice",
            ProtocolCode::Arity => "8 Arity",
            ProtocolCode::Kind => "9 Kind",
            ProtocolCode::LooseVariable => "10 LooseVariable",
            ProtocolCode::TooMany => "11 TooMany",
            ProtocolCode::AmbiguousNew => "12 AmbiguousNew",
            ProtocolCode::LongFile => "13 LongFile",
            ProtocolCode::PhaseOrder => "14 PhaseOrder",
        }
    }
}

impl fmt::Display for ProtocolCode {
    ghost use Rattle.std.specs.Prelude.{Some};
    ghost use Rattle.protocol_loading.specs.Codes.{code_text, refusal_by};

    ghost output = { λ c. Some (code_text (refusal_by c)) };

    fn fmt<W: fmt::Write>(&self, f: &mut fmt::Formatter<W>) -> fmt::Result {
        f.write_str(self.words())
    }
}
