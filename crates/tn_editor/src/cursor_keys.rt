//! Cursor keys among the bytes of a keyboard.

const ESCAPE: u8 = 0x1b;

/// A cursor key.
#[derive(Clone, Copy, Debug, PartialEq, Eq)]
pub enum Arrow {
    Up,
    Down,
    Right,
    Left,
}

/// The outcome of a byte of the keyboard.
#[derive(Clone, Copy, Debug, PartialEq, Eq)]
pub enum Pressed {
    /// The bytes that wait may be the beginning of a cursor key.
    Waits,
    /// These bytes are no cursor key, and are typed in this order; the places that are not needed are the last ones.
    Bytes([Option<u8>; 3]),
    /// A cursor key came whole.
    Arrow(Arrow),
}

// The bytes that wait.
#[derive(Clone, Copy, PartialEq, Eq)]
enum Waiting {
    Nothing,
    // ESC
    Escape,
    // ESC and this byte, `[` or `O`
    Sequence(u8),
}

/// Recognizes the cursor keys of a terminal (ECMA-48, CUU to CUB; those of a VT100), ESC `[` or ESC `O` and one of
/// `A` to `D`, in bytes that come cut anywhere.
#[derive(Clone, Copy, PartialEq, Eq)]
pub struct Arrows {
    waiting: Waiting,
}

impl Arrows {
    /// Makes a recognizer for which no byte waits.
    pub fn new() -> Arrows {
        Arrows {
            waiting: Waiting::Nothing,
        }
    }

    /// Returns whether bytes wait for the next one.
    pub fn waits(&self) -> bool {
        self.waiting != Waiting::Nothing
    }

    /// Takes the next byte.
    pub fn take(&mut self, byte: u8) -> Pressed {
        let before = self.waiting;
        self.waiting = Waiting::Nothing;
        match before {
            Waiting::Nothing if byte != ESCAPE => bytes(Some(byte), None, None),
            Waiting::Nothing => self.wait(Waiting::Escape),
            Waiting::Escape if byte == b'[' || byte == b'O' => self.wait(Waiting::Sequence(byte)),
            Waiting::Escape if byte == ESCAPE => {
                self.waiting = Waiting::Escape;
                bytes(Some(ESCAPE), None, None)
            },
            Waiting::Escape => bytes(Some(ESCAPE), Some(byte), None),
            Waiting::Sequence(second) => self.end(second, byte),
        }
    }

    /// Gives up the bytes that wait, if no byte follows: these bytes are typed.
    pub fn give_up(&mut self) -> [Option<u8>; 3] {
        let before = self.waiting;
        self.waiting = Waiting::Nothing;
        match before {
            Waiting::Nothing => [None, None, None],
            Waiting::Escape => [Some(ESCAPE), None, None],
            Waiting::Sequence(second) => [Some(ESCAPE), Some(second), None],
        }
    }

    fn wait(&mut self, waiting: Waiting) -> Pressed {
        self.waiting = waiting;
        Pressed::Waits
    }

    // Takes the last byte of three.
    fn end(&mut self, second: u8, byte: u8) -> Pressed {
        match byte {
            b'A' => Pressed::Arrow(Arrow::Up),
            b'B' => Pressed::Arrow(Arrow::Down),
            b'C' => Pressed::Arrow(Arrow::Right),
            b'D' => Pressed::Arrow(Arrow::Left),
            ESCAPE => {
                self.waiting = Waiting::Escape;
                bytes(Some(ESCAPE), Some(second), None)
            },
            _ => bytes(Some(ESCAPE), Some(second), Some(byte)),
        }
    }
}

fn bytes(first: Option<u8>, second: Option<u8>, third: Option<u8>) -> Pressed {
    Pressed::Bytes([first, second, third])
}
