// Why a step of the book refuses: a profile's refusal, or one of document 01's 21 to 28 and document 02's.
ghost use Rattle.std.specs.Prelude.{◌≡◌};
ghost use Rattle.book.specs.Refusals.{book_refusal_of, book_answer_of};
ghost use Rattle.book.specs.declared.error.BookError.TheVariants.{Profile};

use registry::error::{Answer, ProfileError};

// The number of each, which C gets.
pub const UNDER_WAY: u8 = 21;

pub const OFF_THE_BOOK: u8 = 22;

pub const IDLE: u8 = 23;

pub const ITSELF: u8 = 24;

pub const TOO_MUCH: u8 = 25;

pub const OTHER_UNIT: u8 = 26;

pub const LONG_NAME: u8 = 27;

pub const BAD_BOOK: u8 = 28;

pub const NOT_EMPTY: u8 = 29;

pub const AWAITED: u8 = 30;

pub const NOT_RESERVED: u8 = 31;

#[derive(Clone, Copy)]
pub enum BookError {
    Profile(ProfileError),
    UnderWay,
    OffTheBook,
    Idle,
    Itself,
    TooMuch,
    OtherUnit,
    LongName(u8),
    BadBook,
    NotEmpty,
    Awaited,
    NotReserved,
}

impl From<ProfileError> for BookError {
    ghost from_gives = { λ e b. b ≡ Profile e };

    fn from(e: ProfileError) -> BookError {
        BookError::Profile(e)
    }
}

// The number, detail and amounts of a refusal. Inlined, so that a run, which keeps two numbers of it, copies no answer.
impl From<BookError> for Answer {
    ghost from_gives = { λ e a. a ≡ book_refusal_of e };

    #[inline(always)]
    fn from(e: BookError) -> Answer {
        match e {
            BookError::Profile(p) => Answer::from(p),
            BookError::UnderWay => Answer::numbered(UNDER_WAY, 0),
            BookError::OffTheBook => Answer::numbered(OFF_THE_BOOK, 0),
            BookError::Idle => Answer::numbered(IDLE, 0),
            BookError::Itself => Answer::numbered(ITSELF, 0),
            BookError::TooMuch => Answer::numbered(TOO_MUCH, 0),
            BookError::OtherUnit => Answer::numbered(OTHER_UNIT, 0),
            BookError::LongName(name) => Answer::numbered(LONG_NAME, name),
            BookError::BadBook => Answer::numbered(BAD_BOOK, 0),
            BookError::NotEmpty => Answer::numbered(NOT_EMPTY, 0),
            BookError::Awaited => Answer::numbered(AWAITED, 0),
            BookError::NotReserved => Answer::numbered(NOT_RESERVED, 0),
        }
    }
}

// The answer of a step, which writes no sheet. registry's `answer_of` is of other refusals, by another definition; how a `Result` is
// converted this crate may not say.
pub fn answer_of(o: Result<(), BookError>) -> Answer
    ensures { result ≡ book_answer_of o }
{
    match o {
        Ok(()) => Answer::numbered(0, 0),
        Err(e) => Answer::from(e),
    }
}
