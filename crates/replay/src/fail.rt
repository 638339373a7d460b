// Why a line has no answer.
use hex::FromHexError;
use std::str::Utf8Error;
use std::{fmt, io};

#[derive(Debug, Drop)]
pub enum Fail {
    // The line is no case.
    BadLine,
    // The program cannot go on.
    Host(io::Error),
}

impl From<fmt::Error> for Fail {
    fn from(e: fmt::Error) -> Fail {
        Fail::Host(io::Error::from(e))
    }
}

impl From<Utf8Error> for Fail {
    fn from(_: Utf8Error) -> Fail {
        Fail::BadLine
    }
}

impl From<FromHexError> for Fail {
    fn from(_: FromHexError) -> Fail {
        Fail::BadLine
    }
}
