//! How rows are written.
ghost use Rattle.std.specs.Prelude.{◌≡◌};
ghost use Rattle.image_more.specs.Texts.{behind};

/// How the next row is written as lines.
#[derive(Clone, Copy)]
pub enum RowForm {
    /// Intel HEX: the first row, or one after a row with this upper half of its address.
    Hex { upper: Option<u16> },
    /// S-records.
    Srec,
}

impl RowForm {
    /// How the row after one of these bytes from `at` on is written.
    pub fn behind(self, at: u32, bytes: &[u8]) -> RowForm
        ensures { result ≡ behind self (record { at = at; bytes = bytes.now }) }
    {
        match self {
            RowForm::Hex { .. } => RowForm::Hex {
                upper: Some((at / 65536) as u16),
            },
            RowForm::Srec => RowForm::Srec,
        }
    }
}
