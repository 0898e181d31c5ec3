// Why reading ends before the last frame.
use frame_file::{FrameFault, OpeningFault};
use std::{fmt, io};

#[derive(Clone, Copy)]
pub enum BadFile {
    Opening(OpeningFault),
    StateCut,
    // by its layout count
    StateRefused(u8),
    FrameCut(u64),
    Frame(u64, FrameFault),
    LeftOver,
}

impl fmt::Display for BadFile {
    fn fmt<W: fmt::Write>(&self, f: &mut fmt::Formatter<W>) -> fmt::Result {
        match self {
            BadFile::Opening(fault) => write!(f, "{fault}"),
            BadFile::StateCut => write!(f, "it ends inside the state"),
            BadFile::StateRefused(count) => {
                write!(f, "its state has layout count {count}, above 5")
            }
            BadFile::FrameCut(number) => write!(f, "frame {number} is cut"),
            BadFile::Frame(number, fault) => write!(f, "frame {number} {fault}"),
            BadFile::LeftOver => write!(f, "bytes are left over after the last frame"),
        }
    }
}

#[derive(Drop)]
pub enum Stop {
    Io(io::Error),
    BadFile(BadFile),
}

impl From<io::Error> for Stop {
    fn from(e: io::Error) -> Stop {
        Stop::Io(e)
    }
}

impl From<BadFile> for Stop {
    fn from(fault: BadFile) -> Stop {
        Stop::BadFile(fault)
    }
}
