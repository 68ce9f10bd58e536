//! The column of the cursor after bytes that a terminal shows.

use unicode_width::UnicodeWidthChar;

// The sequence that the last bytes began.
#[derive(Clone, Copy, PartialEq, Eq)]
enum Begun {
    Nothing,
    // A character with this code so far, and this number of bytes to come.
    Character(u32, u8),
    // ESC
    Escape,
    // ESC and `[`, up to a byte from `@` to `~`
    Control,
    // ESC and `]`, up to BEL or ESC `\`
    Text,
}

/// Follows the cursor's column over the output of a terminal, in bytes that come cut anywhere: returns, backspaces,
/// tabs and characters by their width. Colours and titles (ECMA-48, CSI and OSC) take no column; other movements
/// of the cursor are not followed.
#[derive(Clone, Copy, PartialEq, Eq)]
pub(crate) struct Column {
    column: usize,
    begun: Begun,
}

impl Column {
    pub(crate) fn new() -> Column {
        Column {
            column: 0,
            begun: Begun::Nothing,
        }
    }

    /// Returns the column, which is the window's width after a character in its last column.
    pub(crate) fn column(&self) -> usize {
        self.column
    }

    pub(crate) fn set(&mut self, column: usize) {
        self.column = column;
        self.begun = Begun::Nothing;
    }

    /// Takes a byte that is shown in a window with this number of columns.
    pub(crate) fn take(&mut self, window: usize, byte: u8) {
        let begun = self.begun;
        self.begun = Begun::Nothing;
        match begun {
            Begun::Escape if byte == b'[' => self.begun = Begun::Control,
            Begun::Escape if byte == b']' => self.begun = Begun::Text,
            Begun::Escape => {},
            Begun::Control if byte < b'@' || byte > b'~' => self.begun = Begun::Control,
            Begun::Control => {},
            Begun::Text if byte == 0x1b => self.begun = Begun::Escape,
            Begun::Text if byte != 7 => self.begun = Begun::Text,
            Begun::Text => {},
            Begun::Character(code, missing) if 0x80 <= byte && byte <= 0xbf => {
                self.go_on(window, code, missing, byte);
            },
            Begun::Character(_, _) | Begun::Nothing => self.begin(window, byte),
        }
    }

    fn begin(&mut self, window: usize, byte: u8) {
        match byte {
            b'\r' => self.column = 0,
            8 => self.column = self.column.saturating_sub(1),
            b'\t' => self.column = after_tab(window, self.column),
            0x1b => self.begun = Begun::Escape,
            0x20..=0x7e => self.put(window, 1),
            0xc2..=0xdf => self.begun = Begun::Character(u32::from(byte & 0x1f), 1),
            0xe0..=0xef => self.begun = Begun::Character(u32::from(byte & 0x0f), 2),
            0xf0..=0xf4 => self.begun = Begun::Character(u32::from(byte & 0x07), 3),
            0x80..=0xff => self.put(window, 1),
            _ => {},
        }
    }

    fn go_on(&mut self, window: usize, code: u32, missing: u8, byte: u8) {
        let code = code
            .saturating_mul(64)
            .saturating_add(u32::from(byte & 0x3f));
        if missing > 1 {
            self.begun = Begun::Character(code, missing.saturating_sub(1));
            return;
        }
        let width = char::from_u32(code).and_then(|c| c.width()).unwrap_or(1);
        self.put(window, width);
    }

    // Moves past a character; one that does not fit into the row begins the next one.
    fn put(&mut self, window: usize, width: usize) {
        let column = self.column.saturating_add(width);
        self.column = if column > window { width } else { column };
    }
}

// Returns the column after a tab, which stops at the last column of the row.
fn after_tab(window: usize, column: usize) -> usize {
    let next = column.saturating_add(8 - column % 8);
    next.min(window.saturating_sub(1)).max(column)
}
