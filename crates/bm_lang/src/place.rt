//! Lines and columns.

/// A place in a text. Lines and columns are counted from 1: lines by line feeds, columns by bytes.
#[derive(Clone, Copy, Debug, PartialEq, Eq)]
pub struct Place {
    pub line: u32,
    pub column: u32,
}

impl Place {
    ghost use Rattle.std.specs.Prelude.{◌≡◌, ◌+◌, ◌<◌, ◌^◌};
    ghost use Rattle.bm_lang.specs.Tokens.{start, after};

    /// The place of a text's first byte.
    pub const START: Place = Place { line: 1, column: 1 };

    // The place behind this byte.
    pub(crate) fn after(self, byte: u8) -> Place
        requires line_fits { self.line + 1 < 2 ^ 32 }
        requires column_fits { self.column + 1 < 2 ^ 32 }
        ensures { result ≡ after self byte }
    {
        if byte == b'\n' {
            Place {
                line: self.line + 1,
                column: 1,
            }
        } else {
            Place {
                line: self.line,
                column: self.column + 1,
            }
        }
    }
}
