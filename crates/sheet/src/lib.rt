// Document 01, "The sheet" and "Sheets sent back", and document 02, ticket 4. The definitions are in specs/.
#![tactic(auto, unfolding(crate::specs::Kinds::kind_of, crate::specs::Kinds::kind_among))]

ghost use Rattle.std.specs.Prelude.{◌≡◌};
ghost use Rattle.sheet.specs.Kinds.{kind_of};

// The nine kinds of lines, and a line whose first field is none of their letters: in the definitions too that is a kind, so no Option holds one.
#[derive(Clone, Copy, Debug, PartialEq, Eq)]
pub enum Kind {
    Process,
    SourceStream,
    MeasurableHeat,
    WasteGas,
    Electricity,
    BoughtPrecursor,
    OwnGood,
    PrecursorFigures,
    PrecursorUse,
    Unknown,
}

// The kind whose letter is this byte.
impl From<u8> for Kind {
    ghost from_gives = { λ byte kind. kind ≡ kind_of byte };

    fn from(byte: u8) -> Kind {
        match byte {
            b'P' => Kind::Process,
            b'S' => Kind::SourceStream,
            b'H' => Kind::MeasurableHeat,
            b'W' => Kind::WasteGas,
            b'E' => Kind::Electricity,
            b'B' => Kind::BoughtPrecursor,
            b'G' => Kind::OwnGood,
            b'K' => Kind::PrecursorFigures,
            b'N' => Kind::PrecursorUse,
            _ => Kind::Unknown,
        }
    }
}
