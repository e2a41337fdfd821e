//! What a page says of a frame, and how a run of frames ends.
ghost use Rattle.std.specs.Prelude.{◌≡◌};
ghost use Rattle.service.specs.Letters.{letter_is, run_end_is};

/// What the receiver made of an arrival: the letter that a page prints for it.
#[derive(Clone, Copy, PartialEq, Eq, Debug)]
pub enum Letter {
    /// Read as it came.
    C,
    /// A suspect packet, read as it came, with pitch off.
    P,
    /// A suspect packet, read with one bit corrected and pitch off.
    S,
    /// A packet that was not read, and counts as an erasure.
    D,
    /// A blank.
    B,
    /// An erasure.
    E,
}

/// Which of three ended a run of takes. They are tested in this order before each take.
#[derive(Clone, Copy, PartialEq, Eq, Debug)]
pub enum RunEnd {
    /// 1: the number of rows wanted was reached.
    Wanted = 1,
    /// 2: the queue of rows was full.
    RowsFull = 2,
    /// 3: the supply was empty.
    SupplyEmpty = 3,
}

impl From<Letter> for u8 {
    ghost from_gives = { λ letter byte. byte ≡ (letter_is letter).byte };

    /// The letter in ASCII.
    fn from(letter: Letter) -> u8 {
        match letter {
            Letter::C => b'C',
            Letter::P => b'P',
            Letter::S => b'S',
            Letter::D => b'D',
            Letter::B => b'B',
            Letter::E => b'E',
        }
    }
}

impl From<RunEnd> for u8 {
    ghost from_gives = { λ end number. number ≡ run_end_is end };

    /// The number of the end, from 1 to 3.
    fn from(end: RunEnd) -> u8 {
        end as u8
    }
}
